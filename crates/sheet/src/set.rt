// Sets of transactions as masks: bit t for transaction t.
ghost use Rattle.std.specs.Prelude.{ℕ, ◌<◌, ◌≤◌, ◌≡◌};
ghost use Rattle.laws.specs.Mask.{bit};
ghost use Rattle.laws.specs.Sets.{joined, removed};
ghost use Rattle.laws.specs.Calls.{SetOf};

// Whether t is in the set.
pub fn has(set: u32, t: usize) -> bool
    requires { t < 32 }
    ensures { result ≡ bit set t }
{
    (set >> t) & 1 == 1
}

// The set with t too, where the test holds.
pub fn join(set: u32, on: bool, t: usize) -> u32
    requires { t < 32 }
    ensures { result ≡ joined set on t }
{
    if on { set | (1u32 << t) } else { set }
}

// The set without t.
pub fn remove(set: u32, t: usize) -> u32
    requires { t < 32 }
    ensures { result ≡ removed set t }
{
    set & !(1u32 << t)
}

// The numbers below n that pass a test.
pub fn below<F: Fn(usize) -> bool>(n: usize, test: F) -> u32
    requires n_bound { n ≤ 32 }
    requires callable { (k : ℕ) → k < n → F.pre test k }
    ensures { SetOf (F.post test) n result }
{
    let mut found: u32 = 0;
    for k in 0..n {
        found = join(found, test(k), k);
    }
    found
}
