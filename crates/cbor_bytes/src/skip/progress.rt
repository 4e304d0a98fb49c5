//! `Progress`: the state of a `Scanner` within an item: which containers are open, what has to come
//! next, and the bytes of a head or character that is not complete.
ghost use Rattle.std.specs.Prelude.{◌≡◌, ◌≤◌, ℕ, List, [], ◌++◌, length, IfOk, IfErr};

use super::Stop;
use super::containers::Containers;
use super::due::{Due, Pause};
use super::held::Held;

/// What is open and what is due after the bytes so far. If a head or a character is not complete,
/// its bytes are kept.
#[derive(Drop)]
pub(super) struct Progress {
    containers: Containers,
    due: Due,
    held: Held,
    ghost few: { length held ≤ 8 },
}

impl Progress {
    ghost use Rattle.cbor_bytes.specs.mirror.Skipping.{Skip, skip_item};
    ghost use Rattle.cbor_grammar.specs.WellFormed.{deepest};
    ghost use Rattle.cbor_bytes.specs.mirror.Scanning.{Waits, IsFew, Pauses, skip_from};
    ghost use Rattle.cbor_bytes.specs.mirror.Scanned.{skip_rest, EndsBefore, StopsAt};

    /// Before the first byte of an item.
    pub(super) fn new() -> Progress
        ensures { Waits (skip_item deepest) (skip_rest result) [] result.held }
    {
        Progress {
            containers: Containers::new(),
            due: Due::Part,
            held: Held::empty(),
        }
    }

    /// Keeps what is due where the bytes end.
    fn pause(&mut self, pause: Pause) -> Stop
        requires { IsFew pause }
        ensures { (from : List ℕ → Skip) (bytes : List ℕ)
            → Pauses (skip_from self.old.containers.outer self.old.containers.top) from bytes
            pause.entry
            → StopsAt self.new from bytes result }
    {
        match pause {
            Pause::Cut(due, rest) => {
                self.due = due;
                self.held = Held::new(rest);
                Stop::Cut
            }
            Pause::Fault { error, after } => Stop::Fault { error, after },
        }
    }

    /// How many bytes follow the item, which continues with these bytes.
    fn after_bytes(&mut self, bytes: &[u8]) -> Result<usize, Stop>
        ensures whole { IfOk result (λ after. EndsBefore (skip_rest self.old) bytes.now after) }
        ensures stops { IfErr result
            (λ stop. StopsAt self.new (skip_rest self.old) bytes.now stop) }
    {
        let rest = match self.due.after(bytes) {
            Ok(rest) => rest,
            Err(pause) => return Err(self.pause(pause)),
        };
        match self.containers.after_item(rest) {
            Ok(rest) => Ok(rest.len()),
            Err(pause) => Err(self.pause(pause)),
        }
    }

    /// How many bytes follow the item, once these bytes come after the earlier ones.
    pub(super) fn after_more(&mut self, bytes: &[u8]) -> Result<usize, Stop>
        ensures whole { (fed : List ℕ)
            → Waits (skip_item deepest) (skip_rest self.old) fed self.old.held
            → IfOk result (λ after. EndsBefore (skip_item deepest) (fed ++ bytes.now) after) }
        ensures stops { (fed : List ℕ)
            → Waits (skip_item deepest) (skip_rest self.old) fed self.old.held
            → IfErr result (λ stop. StopsAt self.new (skip_item deepest) (fed ++ bytes.now) stop) }
    {
        let mut rest = bytes;
        'held: while self.held.len() > 0 {
            let [byte, after @ ..] = rest else {
                return Err(Stop::Cut);
            };
            rest = after;
            let held = self.held.with(*byte);
            match self.after_bytes(held.as_slice()) {
                Ok(over) => return Ok(over + rest.len()),
                Err(Stop::Cut) => (),
                Err(Stop::Fault { error, after }) => {
                    let after = after + rest.len();
                    return Err(Stop::Fault { error, after });
                }
            }
        }
        self.after_bytes(rest)
    }
}
