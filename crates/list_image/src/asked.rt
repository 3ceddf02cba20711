// What a program that lists is asked for by its arguments.
ghost use Rattle.list_image.specs.Asked.{AsksFor};

use sweep::Rule;

// By the manual or by document 01, and by a rule. (A bool for the reading, as in `listing::list`, to which it goes.)
#[derive(Clone, Copy)]
pub struct Asked {
    pub manual: bool,
    pub rule: Rule,
}

// By how many arguments there are, the program's own name among them, and the two behind that; none where they are not known.
pub(crate) fn by_words(count: usize, first: &[u8], second: &[u8]) -> Option<Asked>
    ensures { AsksFor count first.now second.now result }
{
    let (manual, rule) = if count <= 1 {
        (false, Rule::GoOn)
    } else if count == 2 && first == b"--stopping".as_slice() {
        (false, Rule::Stop)
    } else if count == 2 && first == b"--manual".as_slice() {
        (true, Rule::GoOn)
    } else if count == 3 && first == b"--stopping".as_slice() && second == b"--manual".as_slice() {
        (true, Rule::Stop)
    } else {
        return None;
    };
    Some(Asked { manual, rule })
}
