// What replaying a line of the stored list shows.
#[derive(Clone, Copy)]
pub enum Verdict {
    Agrees,
    Differs,
    Malformed,
}
