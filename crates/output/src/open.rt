// The bytes of an actor's open steps, from sets of them.
ghost use Rattle.std.specs.Prelude.{◌<◌, ◌≤◌, ◌≡◌, length};
ghost use Rattle.laws.specs.Gather.{gather};
ghost use Rattle.laws.specs.Over.{over};
ghost use Rattle.output.specs.Forms.Emitted.{emitted, emitted_at, opens, opens_for, below_bytes, last_bytes, kind_bytes, actor_bytes, Counted, Ones};

use sheet::set;

// The number of a mask's bits; none at once where it is empty.
fn ones(mask: u32) -> usize
    ensures { Ones mask result }
{
    if mask == 0 {
        return 0;
    }
    u32::count_ones(mask) as usize
}

// The number of steps in the sets.
pub fn open_count(below: [u32; 28], last: u32) -> usize
    ensures { Counted below last result }
{
    let mut sum: usize = 0;
    for set in &below {
        sum += ones(*set);
    }
    sum + ones(last % 268435456)
}

// One step's bytes, where it is on.
pub fn write_step(on: bool, kind: u8, actor: u8, t: u8, d: u8, out: &mut [u8]) -> usize
    requires { length (emitted on kind actor t d) ≤ length out.old }
    ensures value { result ≡ length (emitted on kind actor t d) }
    ensures out_after { out.new ≡ over (emitted on kind actor t d) out.old }
{
    if on {
        out[0] = kind;
        out[1] = actor;
        out[2] = t;
        out[3] = d;
        4
    } else {
        0
    }
}

// The steps of one kind and one transaction byte, for the destinations that are on.
fn write_at(on: [bool; 4], kind: u8, actor: u8, t: u8, out: &mut [u8]) -> usize
    requires { length (emitted_at (opens on) kind actor t) ≤ length out.old }
    ensures value { result ≡ length (emitted_at (opens on) kind actor t) }
    ensures out_after { out.new ≡ over (emitted_at (opens on) kind actor t) out.old }
{
    let mut at: usize = 0;
    for d in 0..4 {
        let wrote = write_step(on[d], kind, actor, t, d as u8, &mut out[at..]);
        at += wrote;
    }
    at
}

// The steps of a kind on transaction t, where each destination has a set.
fn write_transaction(
    alice: u32,
    bob: u32,
    contract: u32,
    carol: u32,
    kind: u8,
    actor: u8,
    t: usize,
    out: &mut [u8],
) -> usize
    requires t_bound { t < 32 }
    requires t_in_bounds { length (emitted_at (opens_for alice bob contract carol t) kind actor t) ≤ length out.old }
    ensures value { result ≡ length (emitted_at (opens_for alice bob contract carol t) kind actor t) }
    ensures out_after { out.new ≡ over (emitted_at (opens_for alice bob contract carol t) kind actor t) out.old }
{
    let on = [
        set::has(alice, t),
        set::has(bob, t),
        set::has(contract, t),
        set::has(carol, t),
    ];
    write_at(on, kind, actor, t as u8, out)
}

// The steps of kind k + 1 on the transactions: none at once where its four sets are empty.
fn write_below(below: [u32; 28], actor: u8, k: usize, out: &mut [u8]) -> usize
    requires k_bound { k < 7 }
    requires k_in_bounds { length (gather 32 (below_bytes below actor k)) ≤ length out.old }
    ensures value { result ≡ length (gather 32 (below_bytes below actor k)) }
    ensures out_after { out.new ≡ over (gather 32 (below_bytes below actor k)) out.old }
{
    let i = 4 * k;
    let alice = below[i];
    let bob = below[i + 1];
    let contract = below[i + 2];
    let carol = below[i + 3];
    if (alice | bob | contract | carol) == 0 {
        return 0;
    }
    let kind = (k + 1) as u8;
    let mut at: usize = 0;
    for t in 0..32 {
        let wrote = write_transaction(alice, bob, contract, carol, kind, actor, t, &mut out[at..]);
        at += wrote;
    }
    at
}

// The steps of kind k + 1 with transaction byte 255: none at once where no kind from it on has any.
fn write_last(last: u32, actor: u8, k: usize, out: &mut [u8]) -> usize
    requires k_bound { k < 7 }
    requires k_in_bounds { length (last_bytes last actor k) ≤ length out.old }
    ensures value { result ≡ length (last_bytes last actor k) }
    ensures out_after { out.new ≡ over (last_bytes last actor k) out.old }
{
    let i = 4 * k;
    if last >> i == 0 {
        return 0;
    }
    let on = [
        set::has(last, i),
        set::has(last, i + 1),
        set::has(last, i + 2),
        set::has(last, i + 3),
    ];
    write_at(on, (k + 1) as u8, actor, 255, out)
}

// The steps of kind k + 1.
fn write_kind(below: [u32; 28], last: u32, actor: u8, k: usize, out: &mut [u8]) -> usize
    requires k_bound { k < 7 }
    requires k_in_bounds { length (kind_bytes below last actor k) ≤ length out.old }
    ensures value { result ≡ length (kind_bytes below last actor k) }
    ensures out_after { out.new ≡ over (kind_bytes below last actor k) out.old }
{
    let start = write_below(below, actor, k, out);
    let rest = write_last(last, actor, k, &mut out[start..]);
    start + rest
}

// An actor's open steps, at the front of the buffer; the answer is their length in bytes.
pub fn write_open(below: [u32; 28], last: u32, actor: u8, out: &mut [u8]) -> usize
    requires { length (actor_bytes below last actor) ≤ length out.old }
    ensures value { result ≡ length (actor_bytes below last actor) }
    ensures out_after { out.new ≡ over (actor_bytes below last actor) out.old }
{
    let mut at: usize = 0;
    for k in 0..7 {
        let wrote = write_kind(below, last, actor, k, &mut out[at..]);
        at += wrote;
    }
    at
}
