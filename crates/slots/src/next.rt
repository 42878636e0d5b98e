// Going through the members of a set.
ghost use Rattle.std.specs.Prelude.{◌≤◌};
ghost use Rattle.std.specs.Iterator.{at_most};
ghost use Rattle.slots.specs.Forms.Members.{Between, gives_least, members_left};

use sheet::set;

// Members of a set, from the least on.
#[derive(Drop)]
pub struct Rest {
    left: u32,
}

// The members from `from` on and below n.
pub fn members_from(set: u32, from: usize, n: usize) -> Rest
    requires from_bound { from ≤ 32 }
    requires n_bound { n ≤ 32 }
    ensures { Between set from n (members_left result) }
{
    let below = (1u64 << n) - 1;
    let before = (1u64 << from) - 1;
    Rest {
        left: (set as u64 & below & !before) as u32,
    }
}

// The members below n.
pub fn members(set: u32, n: usize) -> Rest
    requires { n ≤ 32 }
    ensures { Between set 0 n (members_left result) }
{
    members_from(set, 0, n)
}

impl Iterator for Rest {
    type Item = usize;

    ghost next_gives = { gives_least };

    ghost remaining = { λ s. at_most (members_left s) };

    fn next(&mut self) -> Option<usize> {
        if self.left == 0 {
            return None;
        }
        let k = self.left.trailing_zeros() as usize;
        self.left = set::remove(self.left, k);
        Some(k)
    }
}
