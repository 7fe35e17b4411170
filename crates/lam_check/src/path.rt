// The way to a partial schedule, ply by ply.

ghost use Rattle.std.specs.Prelude.{◌≡◌, ◌<◌, length};
ghost use Rattle.lam_job.specs.Partial.{child};
ghost use Rattle.lam_check.specs.inside.Machine.{front};

use lam_rules::Partial;
use lam_stock::{ItemNo, Stack};

/// No length yet, and no plies.
pub fn at_start(prefix: Stack) -> Partial
    ensures { result ≡ record { n = 0; prefix = prefix } }
{
    Partial { n: 0, prefix }
}

/// The number of listed plies.
pub fn length_of(partial: &Partial) -> u8
    ensures { result ≡ partial.now.n }
{
    partial.n
}

/// How many plies are settled.
pub fn depth_of(partial: &Partial) -> usize
    ensures { result ≡ length partial.now.prefix }
{
    partial.prefix.items().len()
}

/// Goes on to another length.
pub fn set_length(partial: &mut Partial, n: u8)
    ensures { partial.new ≡ record { n = n; prefix = partial.old.prefix } }
{
    partial.n = n;
}

/// Goes down to a child.
pub fn go_down(partial: &mut Partial, item: ItemNo)
    requires { length partial.old.prefix < 64 }
    ensures { partial.new ≡ child partial.old item }
{
    partial.prefix.push(item);
}

/// Goes up from a child, or stays at the root.
pub fn go_up(partial: &mut Partial)
    ensures { partial.new ≡ record { n = partial.old.n; prefix = front partial.old.prefix } }
{
    let _ = partial.prefix.pop();
}
