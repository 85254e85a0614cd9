// A free tier joins a chain.
#![tactic(auto)]

ghost use Rattle.std.specs.Prelude.{◌≡◌};
ghost use Rattle.joining.specs.Joining.{join as joining_join};
ghost use Rattle.joining.specs.Asking.{EndsAt, CanFollow, CanJoin};

use layout::{Counter, Global, Header, Shape};

// The last tier of a chain, and how many tiers it has.
#[derive(Clone, Copy)]
pub struct End {
    pub last: usize,
    pub length: usize,
}

// The end of segment s's chain.
fn end_of_chain(z: Shape, img: &[u8], s: usize) -> End
    requires { CanFollow z img.now s }
    ensures { EndsAt z img.now s result.last result.length }
{
    let most = layout::tier_count(z);
    let mut last = 0;
    let mut t = s + 1;
    for k in 0..most {
        if t == 0 {
            return End { last, length: k };
        }
        last = t;
        t = layout::read::shared(z, img, t, Header::NextTier) as usize;
    }
    End { last, length: most }
}

// The first free tier joins segment s's chain. All is read before the first write.
pub fn join(z: Shape, img: &mut [u8], s: usize)
    requires { CanJoin z img.old s }
    ensures { img.new ≡ joining_join z img.old s }
{
    let free = layout::read::global(z, img, Global::FirstFree);
    let t = free as usize;
    let next = layout::read::shared(z, img, t, Header::NextTier);
    let used = layout::read::global(z, img, Global::UsedTiers);
    let end = end_of_chain(z, img, s);
    layout::write::put_shared(z, img, end.last, Header::NextTier, free);
    layout::write::put_global(z, img, Global::FirstFree, next);
    layout::write::put_global(z, img, Global::UsedTiers, used + 1);
    layout::write::put_shared(z, img, t, Header::NextTier, 0);
    layout::write::put_counter(z, img, t, Counter::Previous, end.last as u64);
    layout::write::put_counter(z, img, t, Counter::Segment, s as u64);
    layout::write::put_counter(z, img, t, Counter::Order, end.length as u64);
}
