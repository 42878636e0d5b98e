// The heights from which a rival is late, sooner, or beats a transaction.
ghost use Rattle.std.specs.Prelude.{◌<◌, ◌≡◌, true, false};
ghost use Rattle.soonest.specs.Soonest.{greater};
ghost use Rattle.prospect.specs.Forms.Thresholds.{height_if, late_from, sooner_above, sooner_from, beat_from};

// No height: above all of them, so that the least of several is found without a case for none (`none` of kept/specs/Forms/Prospect.antt).
pub const NONE: u32 = 4294967295;

// The height where a test holds, else none.
fn height_if(on: bool, height: u32) -> u32
    ensures { result ≡ height_if on height }
{
    if on { height } else { NONE }
}

// The greater of two heights.
fn later(a: u32, b: u32) -> u32
    ensures { result ≡ greater a b }
{
    if a < b { b } else { a }
}

// Where the parent is unconfirmed and the rival's lock moves with it.
fn late_since(runs: bool, since: bool, own: u32, his: u32) -> u32
    requires { own < 4294967295 }
    ensures { result ≡ late_from false runs since true own his }
{
    if since {
        return height_if(runs, height_if(own < his, his));
    }
    height_if(runs, later(his, own + 1))
}

// Where the parent is unconfirmed and the rival's lock does not move with it.
fn late_apart(runs: bool, since: bool, own: u32, his: u32) -> u32
    ensures { result ≡ late_from false runs since false own his }
{
    if since {
        return height_if(own < his, height_if(runs, his));
    }
    height_if(own < his, 0)
}

// The height from which a rival is late: whether the parent is confirmed, can come, and which of the two locks are since it.
pub fn late_from(fixed: bool, runs: bool, since: bool, moves: bool, own: u32, his: u32) -> u32
    requires { own < 4294967295 }
    ensures { result ≡ late_from fixed runs since moves own his }
{
    if fixed {
        return height_if(own < his, his);
    }
    if moves {
        return late_since(runs, since, own, his);
    }
    late_apart(runs, since, own, his)
}

// The height from which a rival that is locked later is sooner.
fn sooner_above(fixed: bool, runs: bool, moves: bool, his: u32) -> u32
    ensures { result ≡ sooner_above fixed runs moves his }
{
    if fixed {
        return his;
    }
    if moves {
        return height_if(runs, his);
    }
    0
}

// The height from which a rival is sooner.
pub fn sooner_from(pooled: bool, fixed: bool, runs: bool, moves: bool, own: u32, his: u32) -> u32
    ensures { result ≡ sooner_from pooled fixed runs moves own his }
{
    if his <= own {
        return 0;
    }
    if pooled {
        return NONE;
    }
    sooner_above(fixed, runs, moves, his)
}

// The height from which a rival beats a transaction, where it can come: at once where it waits.
pub fn beat_from(comes: bool, waits: bool, height: u32) -> u32
    ensures { result ≡ beat_from comes waits height }
{
    if waits {
        return height_if(comes, 0);
    }
    height_if(comes, height)
}
