// What can come, from what was read.
ghost use Rattle.std.specs.Prelude.{◌<◌, ◌≡◌, ◌&&◌};
ghost use Rattle.laws.specs.Booleans.{pick};
ghost use Rattle.laws.specs.Mask.{bit};
ghost use Rattle.sheet.specs.Field.{count};
ghost use Rattle.sheet.specs.Checked.{Checked};
ghost use Rattle.slots.specs.Ancestry.{has_parent};
ghost use Rattle.attainable.specs.Forms.Others.{meets};
ghost use Rattle.attainable.specs.Forms.Round.{meets_one, signers, reach_set, shown_in, Attains, AttainsElsewhere};

use crate::Others;
use sheet::field::Sheet;
use sheet::set;
use steps::parent;

// Whether nothing of a lack is outside the secrets shown.
fn meets(secrets: u32, lack: u16) -> bool
    ensures { result ≡ meets secrets lack }
{
    (lack as u32) & !secrets == 0
}

// Whether one of the lacks for the four destinations is met.
fn meets_one(secrets: u32, alice: u16, bob: u16, contract: u16, carol: u16) -> bool
    ensures { result ≡ meets_one secrets alice bob contract carol }
{
    if meets(secrets, contract) {
        return true;
    }
    if meets(secrets, alice) {
        return true;
    }
    if meets(secrets, bob) {
        return true;
    }
    meets(secrets, carol)
}

// Those that the others can sign for some destination with these secrets.
fn signers(others: Others, sheet: &Sheet, secrets: u32) -> u32
    ensures { result ≡ signers sheet.now.bytes others secrets }
{
    set::below(sheet.count(), |t| {
        meets_one(
            secrets,
            others.alice[t],
            others.bob[t],
            others.contract[t],
            others.carol[t],
        )
    })
}

// Whether t is in the set `can`, and its parent is none or there.
fn reaches(sheet: &Sheet, can: u32, there: u32, t: usize) -> bool
    requires t_bound { t < count sheet.now.bytes }
    ensures { result ≡ (bit can t && has_parent sheet.now.bytes (bit there) t) }
{
    if set::has(can, t) {
        return parent::parent_there(sheet, there, t);
    }
    false
}

// Those of the set `can` whose line is in it up to an opening or a child of a confirmed one. Parents come first.
fn reach(sheet: &Sheet, confirmed: u32, can: u32) -> u32
    requires { Checked sheet.now.bytes }
    ensures { result ≡ reach_set sheet.now.bytes confirmed can }
{
    let n = sheet.count();
    let mut found: u32 = 0;
    for t in 0..n {
        found = set::join(found, reaches(sheet, can, confirmed | found, t), t);
    }
    found
}

// What t shows, where it is a member.
fn shown_by(members: u32, secrets: u8, t: usize) -> u8
    requires { t < 32 }
    ensures { result ≡ pick (bit members t) secrets 0 }
{
    if set::has(members, t) {
        return secrets;
    }
    0
}

// The secrets that the members of a set show.
pub fn shown(shows: [u8; 32], sheet: &Sheet, members: u32) -> u8
    ensures { result ≡ shown_in sheet.now.bytes shows members }
{
    let n = sheet.count();
    let mut found: u8 = 0;
    for t in 0..n {
        found = found | shown_by(members, shows[t], t);
    }
    found
}

// What can come without the party, which sends transactions of the set `also`: again while more secrets are shown.
pub fn attainable(others: Others, sheet: &Sheet, also: u32) -> u32
    requires { Checked sheet.now.bytes }
    ensures { Attains sheet.now.bytes others also result }
{
    let asked = others.waits | (also & others.sends);
    let mut secrets: u8 = 0;
    loop {
        let can = (asked | signers(others, sheet, u32::from(secrets))) & !others.gone;
        let members = reach(sheet, others.confirmed, can);
        let shows = others.shows;
        let more = secrets | shown(shows, sheet, members);
        if more == secrets {
            return members;
        }
        secrets = more;
    }
}

// Of these, `attained`, those that can come with a destination other than the party.
pub fn attainable_elsewhere(others: Others, sheet: &Sheet, also: u32, attained: u32) -> u32
    requires checked { Checked sheet.now.bytes }
    requires attains { Attains sheet.now.bytes others also attained }
    ensures { AttainsElsewhere sheet.now.bytes others also result }
{
    let asked = others.waits_elsewhere | (also & others.sends_elsewhere);
    let shows = others.shows;
    let secrets = u32::from(shown(shows, sheet, attained));
    attained & (asked | signers(others, sheet, secrets))
}
