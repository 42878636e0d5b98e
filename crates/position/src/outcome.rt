// What a step leaves, by its refusal: what it makes of it where it is accepted, else what was there.
ghost use Rattle.std.specs.Prelude.{◌+◌, ◌<◌, ◌^◌, ◌≡◌, eqb};
ghost use Rattle.std.specs.Int.Bits.{bit_or};
ghost use Rattle.laws.specs.Booleans.{pick};
ghost use Rattle.sheet.specs.Refusal.{accepted};

use slots::Slot;

// A slot.
pub fn slot_after(refusal: u32, after: Slot, before: Slot) -> Slot
    ensures { result ≡ pick (eqb refusal accepted) after before }
{
    if refusal == 0 {
        return after;
    }
    before
}

// The keys that a party holds, with signature i given to it.
pub fn keys_after(refusal: u32, held: u8, i: u8) -> u8
    requires { i < 8 }
    ensures { result ≡ pick (eqb refusal accepted) (bit_or held (2 ^ i)) held }
{
    if refusal == 0 {
        return held | (1u8 << i);
    }
    held
}

// The blocks mined.
pub fn mined_after(refusal: u32, mined: u16) -> u16
    requires { refusal ≡ accepted → mined < 10000 }
    ensures { result ≡ pick (eqb refusal accepted) (mined + 1) mined }
{
    if refusal == 0 {
        return mined + 1;
    }
    mined
}

// The entries of the block being filled that are confirmed.
pub fn entries_after(refusal: u32, block: u32) -> u32
    ensures { result ≡ pick (eqb refusal accepted) block 0 }
{
    if refusal == 0 {
        return block;
    }
    0
}
