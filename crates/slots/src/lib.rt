// The steps, what a position holds for each transaction, and what is worked out from these and the sheet.

#![tactic(auto)]

ghost use Rattle.std.specs.Prelude.{◌<◌, ◌≡◌};
ghost use Rattle.slots.specs.Slot.{with_pool, with_block, with_confirmed, shared_for, with_shared, shared_any, marks_of, marked_for, with_mark};

pub mod ancestry;
pub mod conflict;
pub mod deadline;
pub mod expiring;
pub mod has_conflicts;
pub mod lock_height;
pub mod next;
pub mod party;
pub mod signatures;

// "destination (0 Alice, 1 Bob, 2 contract)", and 3 Carol
#[derive(Clone, Copy)]
pub enum Destination {
    Alice,
    Bob,
    Contract,
    Carol,
}

// "a step is one of seven kinds": each with its party, its transaction byte and its destination
#[derive(Clone, Copy)]
pub enum Step {
    Share(u8, u8, Destination),
    Give(u8, u8, Destination),
    SendToPool(u8, u8, Destination),
    HandToMiner(u8, u8, Destination),
    Include(u8, u8, Destination),
    Mine(u8, u8, Destination),
    Bump(u8, u8, Destination),
}

// "for each of 32 transactions, its pool entry, block entry, confirmation and shared knowledge", and "the shares it has made".
// Twelve bytes, without padding.
#[derive(Clone, Copy, PartialEq, Eq)]
pub struct Slot {
    // pool entry, block entry and confirmation: 0 none, else the destination + 1
    pub pool: u8,
    pub block: u8,
    pub confirmed: u8,
    // the shares made by Alice, by Bob and by Carol: a bit for each destination
    pub alice_made: u8,
    pub bob_made: u8,
    pub carol_made: u8,
    // the signatures shared for each destination
    pub alice: u8,
    pub bob: u8,
    pub carol: u8,
    pub contract: u8,
    // the block of the confirmation, 0 while there is none
    pub height: u16,
}

impl Slot {
    // The slot with another pool entry.
    pub fn with_pool(mut self, entry: u8) -> Slot
        ensures { result ≡ with_pool entry self }
    {
        self.pool = entry;
        self
    }

    // The slot with another block entry.
    pub fn with_block(mut self, entry: u8) -> Slot
        ensures { result ≡ with_block entry self }
    {
        self.block = entry;
        self
    }

    // The slot with a confirmation for an entry's destination.
    pub fn with_confirmed(mut self, entry: u8, block: u16) -> Slot
        ensures { result ≡ with_confirmed entry block self }
    {
        self.confirmed = entry;
        self.height = block;
        self
    }

    // The signatures shared for a destination.
    pub fn shared_for(self, destination: u8) -> u8
        ensures { result ≡ shared_for self destination }
    {
        if destination == 0 {
            return self.alice;
        }
        if destination == 1 {
            return self.bob;
        }
        if destination == 2 {
            return self.contract;
        }
        self.carol
    }

    // The slot with the signatures of a mask shared for a destination.
    pub fn with_shared(mut self, destination: u8, mask: u8) -> Slot
        ensures { result ≡ with_shared destination mask self }
    {
        if destination == 0 {
            self.alice = self.alice | mask;
            return self;
        }
        if destination == 1 {
            self.bob = self.bob | mask;
            return self;
        }
        if destination == 2 {
            self.contract = self.contract | mask;
            return self;
        }
        if destination == 3 {
            self.carol = self.carol | mask;
        }
        self
    }

    // The signatures shared for any destination.
    pub fn shared_any(self) -> u8
        ensures { result ≡ shared_any self }
    {
        self.alice | self.bob | self.contract | self.carol
    }

    // A party's share marks.
    fn marks(self, party: u8) -> u8
        ensures { result ≡ marks_of self party }
    {
        if party == 0 {
            return self.alice_made;
        }
        if party == 1 {
            return self.bob_made;
        }
        if party == 3 {
            return self.carol_made;
        }
        0
    }

    // Whether a party has shared the transaction for a destination.
    pub fn marked_for(self, party: u8, destination: u8) -> bool
        requires { destination < 4 }
        ensures { result ≡ marked_for self party destination }
    {
        signatures::has(self.marks(party), destination)
    }

    // The slot with one more share mark.
    pub fn with_mark(mut self, party: u8, destination: u8) -> Slot
        requires { destination < 4 }
        ensures { result ≡ with_mark party destination self }
    {
        if party == 0 {
            self.alice_made = self.alice_made | (1u8 << destination);
            return self;
        }
        if party == 1 {
            self.bob_made = self.bob_made | (1u8 << destination);
            return self;
        }
        if party == 3 {
            self.carol_made = self.carol_made | (1u8 << destination);
        }
        self
    }
}
