// Signatures as bit masks.
ghost use Rattle.std.specs.Prelude.{◌<◌, ◌≡◌, not, ◌||◌};
ghost use Rattle.laws.specs.Mask.{bit, subset};
ghost use Rattle.sheet.specs.Field.{count};
ghost use Rattle.sheet.specs.Checked.{Checked};
ghost use Rattle.slots.specs.Signatures.{sender_mask, signed, share_mask, exposed_mask};

use sheet::field::Sheet;

// Whether a mask has signature i.
pub fn has(mask: u8, i: u8) -> bool
    requires { i < 8 }
    ensures { result ≡ bit mask i }
{
    (mask >> i) & 1 == 1
}

// Whether the lowest signature is at hand where it is needed.
fn at_hand(need: u8, have: u8) -> bool
    ensures { result ≡ (not (bit need 0) || bit have 0) }
{
    if has(need, 0) {
        return has(have, 0);
    }
    true
}

// Whether each needed signature is at hand: both masks are shifted right, signature by signature, until nothing is needed any more.
// Document 01 names this form: "the subset test is an and over shifted bits".
fn all_at_hand(need: u8, have: u8) -> bool
    ensures { result ≡ subset 8 need have }
{
    let mut needed = need;
    let mut there = have;
    while needed != 0 {
        if !at_hand(needed, there) {
            return false;
        }
        needed = needed >> 1;
        there = there >> 1;
    }
    true
}

// Whether what a sender has is enough for t.
pub fn signed(sheet: &Sheet, have: u8, t: usize) -> bool
    requires checked { Checked sheet.now.bytes }
    requires t_bound { t < count sheet.now.bytes }
    ensures { result ≡ signed sheet.now.bytes have t }
{
    all_at_hand(sheet.required(t), have)
}

// Keys held, shared secrets, and what is shared for the same transaction and destination.
pub fn sender_mask(held: u8, secrets: u8, shared: u8) -> u8
    ensures { result ≡ sender_mask held secrets shared }
{
    held | (secrets | shared)
}

// The held, required, non-secret signatures on t.
pub fn share_mask(sheet: &Sheet, held: u8, t: usize) -> u8
    requires t_bound { t < count sheet.now.bytes }
    ensures { result ≡ share_mask sheet.now.bytes held t }
{
    (held & sheet.required(t)) & !sheet.secrets()
}

// What sending t exposes: its required signatures, none if it is veiled.
pub fn exposed_mask(sheet: &Sheet, t: usize) -> u8
    requires t_bound { t < count sheet.now.bytes }
    ensures { result ≡ exposed_mask sheet.now.bytes t }
{
    if sheet.veil(t) == 1 {
        return 0;
    }
    sheet.required(t)
}
