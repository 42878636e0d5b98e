// Tables over the sheet's transactions: something for each of them.
ghost use Rattle.std.specs.Prelude.{ℕ, ◌<◌, ◌≤◌};
ghost use Rattle.laws.specs.Calls.{TableOf};

// A table with an entry at each place below n, and `rest` from there on.
pub fn filled<T: Copy, const N: usize, F: Fn(usize) -> T>(n: usize, rest: T, entry: F) -> [T; N]
    requires n_bound { n ≤ N }
    requires callable { (k : ℕ) → k < n → F.pre entry k }
    ensures { TableOf (F.post entry) N n rest result }
{
    let mut table = [rest; N];
    for k in 0..n {
        table[k] = entry(k);
    }
    table
}
