// What the crate m16c_sweep has, under the names that C sees.

#![tactic(auto)]

ghost use Rattle.m16c_sweep.specs.Parts.{SweepsInParts};
ghost use Rattle.rows.specs.Groups.{document01};
ghost use Rattle.sweep.specs.declared.Rule.{Rule};

#[unsafe(no_mangle)]
pub extern "C" fn m16c_sweep(
    image: &[u8],
    starts: &mut [u16],
    count: &mut usize,
    place: &mut usize,
    refused: &mut usize,
    read: &mut usize,
) -> u32
    ensures { SweepsInParts document01 Rule.GoOn image.now starts.old result count.new place.new refused.new read.new starts.new }
{
    m16c_sweep::m16c_sweep(image, starts, count, place, refused, read)
}

#[unsafe(no_mangle)]
pub extern "C" fn m16c_sweep_stopping(
    image: &[u8],
    starts: &mut [u16],
    count: &mut usize,
    place: &mut usize,
    refused: &mut usize,
    read: &mut usize,
) -> u32
    ensures { SweepsInParts document01 Rule.Stop image.now starts.old result count.new place.new refused.new read.new starts.new }
{
    m16c_sweep::m16c_sweep_stopping(image, starts, count, place, refused, read)
}
