// The sweeps for C by the manual, a crate of their own: in one with those by document 01 the loop would ask at every code which of the two
// it goes by.

#![tactic(auto)]

ghost use Rattle.by_manual.specs.Table.{by_manual};
ghost use Rattle.m16c_sweep.specs.Parts.{SweepsInParts};
ghost use Rattle.sweep.specs.declared.Rule.{Rule};

// Sweeps as m16c_sweep does, by the manual. The starts do not say so: decode and list there by the manual too.
pub fn m16c_sweep_manual(
    image: &[u8],
    starts: &mut [u16],
    count: &mut usize,
    place: &mut usize,
    refused: &mut usize,
    read: &mut usize,
) -> u32
    ensures { SweepsInParts by_manual Rule.GoOn image.now starts.old result count.new place.new refused.new read.new starts.new }
{
    let swept = m16c_sweep::numbers_of(sweep::sweep_manual(image, starts));
    m16c_sweep::in_parts(swept, count, place, refused, read)
}

// Sweeps as m16c_sweep_stopping does, by the manual. The starts do not say so: decode and list there by the manual too.
pub fn m16c_sweep_manual_stopping(
    image: &[u8],
    starts: &mut [u16],
    count: &mut usize,
    place: &mut usize,
    refused: &mut usize,
    read: &mut usize,
) -> u32
    ensures { SweepsInParts by_manual Rule.Stop image.now starts.old result count.new place.new refused.new read.new starts.new }
{
    let stopped = m16c_sweep::numbers_of(sweep::sweep_manual_stopping(image, starts));
    m16c_sweep::in_parts(stopped, count, place, refused, read)
}
