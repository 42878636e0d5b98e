// The fields of a sheet.
ghost use Rattle.std.specs.Prelude.{◌<◌, ◌≤◌, ◌+◌, ◌*◌, ◌≡◌, length};
ghost use Rattle.sheet.specs.Field.{byte, parties, count, arrays, is_party, place, party_at, signatures, secrets, start_mask, start_keys, entry, lock_pair, parent, payees, required, veil, lock_type, days, opening, Sized, Whole};
ghost use Rattle.sheet.specs.Forms.Field.{Wide, Few, Start};

use std::marker::Model;

// The byte at place i, 0 past the end.
fn byte_or_zero(bytes: &[u8], i: usize) -> u8
    ensures { result ≡ byte bytes.now i }
{
    if i < bytes.len() {
        return bytes[i];
    }
    0
}

// The number of parties: a first byte of 128 or more announces a third.
pub fn parties(sheet: &[u8]) -> usize
    requires { 1 ≤ length sheet.now }
    ensures { Few (parties sheet.now) result }
{
    if sheet[0] < 128 {
        return 2;
    }
    3
}

// The number of transactions.
pub fn count(sheet: &[u8]) -> usize
    requires { 5 ≤ length sheet.now }
    ensures { Wide (count sheet.now) result }
{
    usize::from(sheet[0] % 128)
}

// Where the two parallel arrays start.
pub fn arrays(sheet: &[u8]) -> usize
    requires { 1 ≤ length sheet.now }
    ensures { Start sheet.now result }
{
    3 + parties(sheet)
}

// A party's place among the sheet's, by its number: document 02's numbering (Slip 10), with no type of its own.
pub fn place(party: u8) -> u8
    ensures { result ≡ place party }
{
    if party < 2 {
        return party;
    }
    party - 1
}

// The number of the party in a place: document 02's numbering, as `place`.
pub fn party_at(k: usize) -> u8
    requires { k < 3 }
    ensures { result ≡ party_at k }
{
    if k < 2 {
        return k as u8;
    }
    k as u8 + 1
}

// Whether a number is a party's: not the miner's, and in a place of the sheet.
pub fn is_party(sheet: &[u8], party: u8) -> bool
    requires { 1 ≤ length sheet.now }
    ensures { result ≡ is_party sheet.now party }
{
    if party == 2 {
        return false;
    }
    usize::from(place(party)) < parties(sheet)
}

// The number of signatures.
pub fn signatures(sheet: &[u8]) -> u8
    requires { 5 ≤ length sheet.now }
    ensures { result ≡ signatures sheet.now }
{
    sheet[1]
}

// The mask of the signatures that are secrets.
pub fn secrets(sheet: &[u8]) -> u8
    requires { 5 ≤ length sheet.now }
    ensures { result ≡ secrets sheet.now }
{
    sheet[2]
}

// The start mask of the party in a place.
pub fn start_mask(sheet: &[u8], k: usize) -> u8
    requires sheet_in_bounds { arrays sheet.now ≤ length sheet.now }
    requires k_bound { k < parties sheet.now }
    ensures { result ≡ start_mask sheet.now k }
{
    sheet[3 + k]
}

// The mask that a party holds at the start, 0 for a number that is no party's.
pub fn start_keys(sheet: &[u8], party: u8) -> u8
    ensures { result ≡ start_keys sheet.now party }
{
    if sheet.len() == 0 {
        return 0;
    }
    if is_party(sheet, party) {
        return byte_or_zero(sheet, 3 + usize::from(place(party)));
    }
    0
}

// A sheet as long as its head says: its bytes, where every field of every transaction is.
#[derive(Drop)]
pub struct Sheet<'a> {
    bytes: &'a [u8],
    ghost sized: { Sized bytes.now },
}

impl<'a> Model for Sheet<'a> {
    ghost Value = { Whole };

    ghost view = { λ s. record { bytes = s.bytes.now; sized = s.sized } };
}

impl<'a> Sheet<'a> {
    // The sheet of these bytes.
    pub fn of(bytes: &'a [u8]) -> Sheet<'a>
        requires { Sized bytes.now }
        ensures { result.bytes ≡ bytes.now }
    {
        Sheet { bytes }
    }

    // The bytes of the sheet.
    pub fn bytes(&self) -> &'a [u8]
        ensures { result.now ≡ self.now.bytes }
    {
        self.bytes
    }

    // The number of transactions.
    pub fn count(&self) -> usize
        ensures { Wide (count self.now.bytes) result }
    {
        count(self.bytes)
    }

    // The number of parties.
    pub fn parties(&self) -> usize
        ensures { Few (parties self.now.bytes) result }
    {
        parties(self.bytes)
    }

    // Whether a number is a party's: not the miner's, and in a place of the sheet.
    pub fn is_party(&self, party: u8) -> bool
        ensures { result ≡ is_party self.now.bytes party }
    {
        is_party(self.bytes, party)
    }

    // The number of signatures.
    pub fn signatures(&self) -> u8
        ensures { result ≡ signatures self.now.bytes }
    {
        signatures(self.bytes)
    }

    // The mask of the signatures that are secrets.
    pub fn secrets(&self) -> u8
        ensures { result ≡ secrets self.now.bytes }
    {
        secrets(self.bytes)
    }

    // Byte k of a transaction's four in the first array.
    fn entry(&self, t: usize, k: usize) -> u8
        requires t_bound { t < count self.now.bytes }
        requires k_bound { k < 4 }
        ensures { result ≡ entry self.now.bytes t k }
    {
        let start = arrays(self.bytes);
        self.bytes[start + 4 * t + k]
    }

    // Byte k of a transaction's two in the second array.
    fn lock_pair(&self, t: usize, k: usize) -> u8
        requires t_bound { t < count self.now.bytes }
        requires k_bound { k < 2 }
        ensures { result ≡ lock_pair self.now.bytes t k }
    {
        let start = arrays(self.bytes);
        let n = self.count();
        self.bytes[start + 4 * n + 2 * t + k]
    }

    // The parent: a lower number, or 255 for a coin's opening.
    pub fn parent(&self, t: usize) -> usize
        requires t_bound { t < count self.now.bytes }
        ensures { Wide (parent self.now.bytes t) result }
    {
        usize::from(self.entry(t, 0))
    }

    // The payees: a bit for each party, in its place; 0 for a contract transaction.
    pub fn payees(&self, t: usize) -> u8
        requires t_bound { t < count self.now.bytes }
        ensures { result ≡ payees self.now.bytes t }
    {
        self.entry(t, 1)
    }

    // The mask of required signatures.
    pub fn required(&self, t: usize) -> u8
        requires t_bound { t < count self.now.bytes }
        ensures { result ≡ required self.now.bytes t }
    {
        self.entry(t, 2)
    }

    // 1 where sending exposes no signature.
    pub fn veil(&self, t: usize) -> u8
        requires t_bound { t < count self.now.bytes }
        ensures { result ≡ veil self.now.bytes t }
    {
        self.entry(t, 3)
    }

    // The lock type: 0 none, 1 absolute, 2 since the parent.
    pub fn lock_type(&self, t: usize) -> u8
        requires t_bound { t < count self.now.bytes }
        ensures { result ≡ lock_type self.now.bytes t }
    {
        self.lock_pair(t, 0)
    }

    // The lock's days.
    pub fn days(&self, t: usize) -> u8
        requires t_bound { t < count self.now.bytes }
        ensures { result ≡ days self.now.bytes t }
    {
        self.lock_pair(t, 1)
    }

    // Whether a transaction is a coin's opening.
    pub fn opening(&self, t: usize) -> bool
        requires t_bound { t < count self.now.bytes }
        ensures { result ≡ opening self.now.bytes t }
    {
        self.entry(t, 0) == 255
    }
}
