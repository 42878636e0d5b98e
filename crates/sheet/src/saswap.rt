// The SASwap sheet for a number of blocks per day.
ghost use Rattle.std.specs.Prelude.{◌≡◌};
ghost use Rattle.sheet.specs.Saswap.{offset, saswap};
ghost use Rattle.sheet.specs.Setup.{is_saswap};

// 1 gives 2, 2 gives 1, anything else 0.
fn offset(per_day: u16) -> u8
    ensures { result ≡ offset per_day }
{
    match per_day {
        1 => 2,
        2 => 1,
        _ => 0,
    }
}

// The sheet: the days of refund_1 and revoke go by the offset.
fn saswap_sheet(per_day: u16) -> [u8; 95]
    ensures { result ≡ saswap per_day }
{
    // At offset 0: the head; the entries of 0 to 4, 5 to 9, 10 to 14; the locks of 0 to 7, 8 to 14.
    let mut bytes = *b"\x0f\x04\x0c\x05\x0a\
        \xff\x00\x01\x00\xff\x00\x02\x00\x00\x00\x0b\x00\x00\x00\x07\x00\x00\x00\x03\x00\
        \x04\x00\x07\x00\x04\x00\x03\x00\x00\x03\x03\x00\x01\x03\x0c\x01\x02\x02\x02\x00\
        \x03\x02\x03\x00\x03\x01\x01\x00\x04\x03\x03\x00\x05\x01\x01\x00\x06\x02\x02\x00\
        \x00\x00\x00\x00\x00\x00\x01\x01\x01\x02\x02\x01\x02\x02\x00\x00\
        \x00\x00\x00\x00\x00\x00\x02\x01\x00\x00\x00\x00\x00\x00";
    bytes[72] = offset(per_day) + 1;
    bytes[74] = offset(per_day) + 2;
    bytes
}

// Whether a sheet is the SASwap sheet for that number of blocks per day.
pub fn is_saswap(sheet: &[u8], per_day: u16) -> bool
    ensures { result ≡ is_saswap sheet.now per_day }
{
    sheet == saswap_sheet(per_day).as_slice()
}
