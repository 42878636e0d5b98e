// Who holds a coin in a position.
ghost use Rattle.std.specs.Prelude.{◌≡◌};
ghost use Rattle.sheet.specs.Checked.{Checked};
ghost use Rattle.position.specs.Holder.{holder_in};

use position::Position;
use readings::{holder, report};
use sheet::field::Sheet;

// The holder of a coin, 255 for nobody.
pub fn holder_in(position: Position, sheet: &Sheet, coin: usize) -> u8
    requires { Checked sheet.now.bytes }
    ensures { result ≡ holder_in sheet.now.bytes position coin }
{
    let view = position.view(sheet);
    let t = holder::coin_end(sheet, view.confirmed, coin);
    if t < 32 {
        let x = position.slots[t];
        return report::payee_of(x);
    }
    255
}
