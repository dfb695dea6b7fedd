ghost use Rattle.std.specs.Prelude.{◌≡◌, ◌≤◌, if◌then◌else◌};
ghost use Rattle.message_layout.specs.Layout.{mask_of};
ghost use Rattle.message_layout.specs.Reading.{bits_of};

use alive_regroup::ProcessorSet;

/// A set as a number: bit p is 1 where processor p is a member.
pub(crate) fn mask_of(set: ProcessorSet) -> u16
    ensures { result ≡ mask_of set.members }
{
    let [a, b, c, d, e, f, g, h, i, j, k, l, m, n, o, p] = set.members;
    bit(a)
        + 2 * (bit(b)
            + 2 * (bit(c)
                + 2 * (bit(d)
                    + 2 * (bit(e)
                        + 2 * (bit(f)
                            + 2 * (bit(g)
                                + 2 * (bit(h)
                                    + 2 * (bit(i)
                                        + 2 * (bit(j)
                                            + 2 * (bit(k)
                                                + 2 * (bit(l)
                                                    + 2 * (bit(m)
                                                        + 2 * (bit(n)
                                                            + 2 * (bit(o) + 2 * bit(p)))))))))))))))
}

fn bit(member: bool) -> u16
    ensures value { result ≡ (if member then 1 else 0) }
    ensures small { result ≤ 1 }
{
    if member { 1 } else { 0 }
}

/// The set whose members are the processors p of which bit p of a number is 1.
pub fn set_of(mask: u16) -> ProcessorSet
    ensures { result.members ≡ bits_of 16 mask }
{
    let mut members = [false; 16];
    let mut left = mask;
    for place in 0..16 {
        members[place] = left % 2 == 1;
        left = left / 2;
    }
    ProcessorSet { members }
}
