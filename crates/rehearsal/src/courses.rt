/// How many courses of a plan are rehearsed at most.
pub const MAX_COURSES: u32 = 64;

/// How many turns of a course are rehearsed at most.
pub const MAX_TURNS: u32 = 10_000;

// The digit of the first outcome.
const FIRST: u64 = 1 << 63;

/// A course that a plan can take: its outcomes in the order in which they are awaited, as the binary digits of a number from the
/// highest on.
#[derive(Clone, Copy)]
pub struct Course {
    digits: u64,
    next: u64,
    last: u64,
}

impl Course {
    /// The first course: each outcome is false.
    pub fn first() -> Course {
        Course {
            digits: 0,
            next: FIRST,
            last: 0,
        }
    }

    /// The next outcome. No network has more than 52.
    pub fn outcome(&mut self) -> bool {
        let outcome = self.digits & self.next != 0;
        self.last = self.next;
        self.next >>= 1;
        outcome
    }

    /// Turns to the next course: the last outcome that was false is true there, and what comes after it is false. False where
    /// this was the last course.
    pub fn advance(&mut self) -> bool {
        let last = self.last;
        self.next = FIRST;
        self.last = 0;
        match self.digits.checked_add(last) {
            Some(digits) => {
                self.digits = digits;
                last != 0
            }
            None => false,
        }
    }
}
