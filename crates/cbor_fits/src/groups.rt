//! Finds which members of an array, or which pairs of a map, a group of CDDL takes (RFC 8610,
//! sections 2.1 and 3.2). Choices are ordered and occurrences are greedy; an entry may have a cut.

ghost use Rattle.std.specs.Prelude.{◌≡◌, Some, IfOk, OnOk, map};
ghost use Rattle.cbor_fits.specs.Rests.{rest_view, outcome_view, pair_view_of};
ghost use Rattle.cbor_fits.specs.Tables.{rules_of};
ghost use Rattle.cbor_fits.specs.Kept.{Holds};
ghost use Rattle.cbor_fits.specs.Fits.{matcher, one_member, in_turn, first_of, refuses, occurs};
ghost use Rattle.cbor_fits.specs.Fits.{occurs_under, takes_node};
ghost use Rattle.cbor_fits.specs.Fits.{entry as entry_takes};

use crate::rest::{Outcome, Rest};
use crate::split::{Entry, Split};
use crate::tables::Tables;
use crate::value::Datum;
use crate::work::Work;
use cbor_cddl::{List, Node, Occurrence, Stop};

impl Tables<'_> {
    /// What the group at an index does with what is left.
    #[inline(never)]
    #[cycle(fits)]
    pub(crate) fn takes<'a>(
        &self,
        work: &mut Work<'a>,
        index: usize,
        rest: &Rest<'a>,
        depth: u32,
    ) -> Result<Outcome<'a>, Stop>
        requires { Holds (rules_of self.now) work.old }
        ensures right { IfOk result (λ o.
            (matcher (rules_of self.now) depth).takes index (rest_view rest.now)
            ≡ Some (outcome_view o)) }
        ensures kept { OnOk result (Holds (rules_of self.now) work.new) }
    {
        if depth == 0 {
            return Err(Stop::Deep);
        }
        work.step()?;
        self.takes_itself(work, index, rest, depth - 1)
    }

    /// What the group at an index does with what is left, by what is inside it.
    #[cycle(fits)]
    fn takes_itself<'a>(
        &self,
        work: &mut Work<'a>,
        index: usize,
        rest: &Rest<'a>,
        inner: u32,
    ) -> Result<Outcome<'a>, Stop>
        requires { Holds (rules_of self.now) work.old }
        ensures right { IfOk result (λ o.
            takes_node (rules_of self.now) (matcher (rules_of self.now) inner) index
            ((rules_of self.now).node index) (rest_view rest.now) ≡ Some (outcome_view o)) }
        ensures kept { OnOk result (Holds (rules_of self.now) work.new) }
    {
        let node = self.node(index);
        match node {
            Node::Sequence(list) => self.take_in_turn(work, list, rest, inner),
            Node::GroupChoice(list) => self.take_first_of(work, list, rest, inner),
            Node::Repeated { item, occurrence } => {
                self.take_repeated(work, item, occurrence, rest, inner)
            }
            Node::Entry {
                key,
                cut,
                value,
                occurrence,
            } => {
                let entry = Entry {
                    key,
                    cut,
                    value,
                    occurrence,
                };
                self.take_entry(work, entry, rest, inner)
            }
            Node::Rule(rule) => {
                if self.is_group(node) {
                    self.takes(work, self.body(rule), rest, inner)
                } else {
                    self.take_member(work, index, rest, inner)
                }
            }
            _ => self.take_member(work, index, rest, inner),
        }
    }

    /// Takes the next member if it fits a type.
    #[inline(never)]
    #[cycle(fits)]
    fn take_member<'a>(
        &self,
        work: &mut Work<'a>,
        index: usize,
        rest: &Rest<'a>,
        inner: u32,
    ) -> Result<Outcome<'a>, Stop>
        requires { Holds (rules_of self.now) work.old }
        ensures right { IfOk result (λ o.
            one_member ((matcher (rules_of self.now) inner).fits index) (rest_view rest.now)
            ≡ Some (outcome_view o)) }
        ensures kept { OnOk result (Holds (rules_of self.now) work.new) }
    {
        let Rest::Members(members) = rest else {
            return Ok(Outcome::Refuses);
        };
        let [first, rest @ ..] = members else {
            return Ok(Outcome::Refuses);
        };
        if self.fits(work, index, first, inner)? {
            Ok(Outcome::Takes(Rest::Members(rest)))
        } else {
            Ok(Outcome::Refuses)
        }
    }

    /// What the parts of a group do, one after the other.
    #[inline(never)]
    #[cycle(fits)]
    fn take_in_turn<'a>(
        &self,
        work: &mut Work<'a>,
        list: List,
        rest: &Rest<'a>,
        inner: u32,
    ) -> Result<Outcome<'a>, Stop>
        requires { Holds (rules_of self.now) work.old }
        ensures right { IfOk result (λ o.
            in_turn (matcher (rules_of self.now) inner).takes ((rules_of self.now).list list)
            (rest_view rest.now) ≡ Some (outcome_view o)) }
        ensures kept { OnOk result (Holds (rules_of self.now) work.new) }
    {
        let mut left = rest.copy(self.alloc)?;
        'parts: for index in self.list(list) {
            match self.takes(work, *index, &left, inner)? {
                Outcome::Takes(next) => left = next,
                Outcome::Refuses => return Ok(Outcome::Refuses),
                Outcome::Cuts => return Ok(Outcome::Cuts),
            }
        }
        Ok(Outcome::Takes(left))
    }

    /// What the first alternative does that takes. A cut ends its alternative.
    #[inline(never)]
    #[cycle(fits)]
    fn take_first_of<'a>(
        &self,
        work: &mut Work<'a>,
        list: List,
        rest: &Rest<'a>,
        inner: u32,
    ) -> Result<Outcome<'a>, Stop>
        requires { Holds (rules_of self.now) work.old }
        ensures right { IfOk result (λ o.
            first_of (λ g. (matcher (rules_of self.now) inner).takes g (rest_view rest.now))
            ((rules_of self.now).list list)
            refuses ≡ Some (outcome_view o)) }
        ensures kept { OnOk result (Holds (rules_of self.now) work.new) }
    {
        let mut cuts = false;
        'groups: for index in self.list(list) {
            match self.takes(work, *index, rest, inner)? {
                Outcome::Takes(next) => return Ok(Outcome::Takes(next)),
                Outcome::Refuses => {}
                Outcome::Cuts => cuts = true,
            }
        }
        if cuts {
            Ok(Outcome::Cuts)
        } else {
            Ok(Outcome::Refuses)
        }
    }

    /// What a group does, as often as it takes something, within an occurrence.
    #[inline(never)]
    #[cycle(fits)]
    fn take_repeated<'a>(
        &self,
        work: &mut Work<'a>,
        index: usize,
        occurrence: Occurrence,
        rest: &Rest<'a>,
        inner: u32,
    ) -> Result<Outcome<'a>, Stop>
        requires { Holds (rules_of self.now) work.old }
        ensures right { IfOk result (λ o.
            occurs ((matcher (rules_of self.now) inner).takes index) occurrence
            (rest_view rest.now) ≡ Some (outcome_view o)) }
        ensures kept { OnOk result (Holds (rules_of self.now) work.new) }
    {
        let mut left = rest.copy(self.alloc)?;
        let mut least = occurrence.least;
        let mut most = occurrence.most;
        'turns: for turn in 0..rest.len() + 1 {
            if most == 0 {
                return Ok(Outcome::Takes(left));
            }
            match self.takes(work, index, &left, inner)? {
                Outcome::Takes(next) => {
                    if next.len() == left.len() {
                        return Ok(Outcome::Takes(left));
                    }
                    left = next;
                }
                Outcome::Refuses => {
                    if least == 0 {
                        return Ok(Outcome::Takes(left));
                    }
                    return Ok(Outcome::Refuses);
                }
                Outcome::Cuts => return Ok(Outcome::Cuts),
            }
            least = least.saturating_sub(1);
            most -= 1;
        }
        Err(Stop::Work)
    }

    /// What an entry does. In an array its key is a name.
    #[cycle(fits)]
    fn take_entry<'a>(
        &self,
        work: &mut Work<'a>,
        entry: Entry,
        rest: &Rest<'a>,
        inner: u32,
    ) -> Result<Outcome<'a>, Stop>
        requires { Holds (rules_of self.now) work.old }
        ensures right { IfOk result (λ o.
            occurs_under ((matcher (rules_of self.now) inner).fits entry.key)
            ((matcher (rules_of self.now) inner).fits entry.value) ((matcher
            (rules_of self.now) inner).takes entry.value)
            entry.cut entry.occurrence (rest_view rest.now) ≡ Some (outcome_view o)) }
        ensures kept { OnOk result (Holds (rules_of self.now) work.new) }
    {
        match rest {
            Rest::Members(_) => {
                self.take_repeated(work, entry.value, entry.occurrence, rest, inner)
            }
            Rest::Pairs(pairs) => self.take_pairs(work, entry, pairs, inner),
        }
    }

    /// What an entry does with pairs: it takes those whose key and value fit.
    #[inline(never)]
    #[cycle(fits)]
    fn take_pairs<'a>(
        &self,
        work: &mut Work<'a>,
        entry: Entry,
        pairs: &[&'a (Datum, Datum)],
        inner: u32,
    ) -> Result<Outcome<'a>, Stop>
        requires { Holds (rules_of self.now) work.old }
        ensures right { IfOk result (λ o.
            entry_takes ((matcher (rules_of self.now) inner).fits entry.key)
            ((matcher (rules_of self.now) inner).fits entry.value) entry.cut entry.occurrence
            (map pair_view_of pairs.now) ≡ Some (outcome_view o)) }
        ensures kept { OnOk result (Holds (rules_of self.now) work.new) }
    {
        let mut split = Split::new(self.alloc, entry.occurrence);
        'pairs: for pair in pairs {
            let fits_key = self.fits(work, entry.key, &pair.0, inner)?;
            let fits_value = fits_key && self.fits(work, entry.value, &pair.1, inner)?;
            split.add(*pair, fits_key, fits_value)?;
        }
        Ok(split.outcome(entry.cut))
    }
}
