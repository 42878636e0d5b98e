// Whether two positions are the same.
ghost use Rattle.std.specs.Prelude.{◌≡◌, true};

use position::Position;

// The same of positions.
pub fn same(p: Position, q: Position) -> bool
    ensures { result ≡ true → p ≡ q }
{
    p == q
}
