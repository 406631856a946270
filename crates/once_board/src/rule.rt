//! The rule of a board's table, and what each of its steps tells. These types are for the proofs alone.
ghost use Rattle.std.specs.Prelude.{List, []};

use crate::holds::Seen;
use crate::owners::Owner;
use atomic_table::{Join, Play, Split, TableRule};
use djvu_base::{Items, Share};
use std::marker::{Brand, PhantomData};

/// Every step keeps it.
pub struct OnceRule;

impl<T: Share> TableRule<Option<T>, Seen<T>, Items<Owner>> for OnceRule {
    ghost use Rattle.once_board.specs.Rule.{Rule};
    ghost use Rattle.once_board.specs.Holds.{first};
    ghost use Rattle.once_board.specs.Told.{idle};

    ghost holds = { λ owners s. Rule T.fits owners s };

    ghost first = { λ owners. idle first };
}

/// Whose the places are. A step picks it at its call, since what a step tells can't read the table's key.
pub trait Owned {
    ghost use Rattle.std.specs.Prelude.{List};
    ghost use Rattle.once_board.specs.declared.owners.Owner.{Owner};

    ghost owners: { List Owner };
}

impl Owned for Brand {
    ghost use Rattle.std.specs.Prelude.{[]};

    ghost owners = { [] };
}

/// An exchange of 0 for 1.
pub struct Claims<O> {
    marker: PhantomData<O>,
}

impl<T: Share, O: Owned> Play<Option<T>, Seen<T>> for Claims<O> {
    ghost use Rattle.once_board.specs.Told.{claim_told};

    ghost then = { claim_told T.fits O.owners };
}

/// A load that takes the empty slot of a place.
pub struct Fills;

impl<T> Play<Option<T>, Seen<T>> for Fills {
    ghost use Rattle.once_board.specs.Told.{fill_told};

    ghost then = { fill_told };
}

/// A store of 2 that brings a value home.
pub struct Puts;

impl<T: Share> Play<Option<T>, Seen<T>> for Puts {
    ghost use Rattle.once_board.specs.Told.{put_told};

    ghost then = { put_told T.fits };
}

/// The right that goes to a seat that is split off. A step picks it at its call.
pub trait Chosen {
    ghost use Rattle.std.specs.Prelude.{ℕ, Option};

    ghost right: { Option ℕ };
}

impl Chosen for Brand {
    ghost use Rattle.std.specs.Prelude.{None};

    ghost right = { None };
}

/// A seat is split off with a right or none.
pub struct Cuts<C> {
    marker: PhantomData<C>,
}

impl<T, C: Chosen> Split<Seen<T>> for Cuts<C> {
    ghost use Rattle.once_board.specs.Told.{cut_kept, cut_off};

    ghost left = { cut_kept C.right };

    ghost right = { cut_off C.right };
}

/// A seat is split off with all rights and all that is known.
pub struct SplitsRights;

impl<T> Split<Seen<T>> for SplitsRights {
    ghost use Rattle.once_board.specs.Told.{rights_split, rights_off};

    ghost left = { rights_split };

    ghost right = { rights_off };
}

/// The rights that came with a seat that was joined are split off again.
pub struct SplitsRightsBack;

impl<T> Split<Seen<T>> for SplitsRightsBack {
    ghost use Rattle.once_board.specs.Told.{back_kept, back_off};

    ghost left = { λ v. back_kept v.stage v.hold };

    ghost right = { λ v. back_off v.stage };
}

/// Two seats become one.
pub struct JoinsSeats;

impl<T> Join<Seen<T>> for JoinsSeats {
    ghost use Rattle.once_board.specs.Holds.{nothing};
    ghost use Rattle.once_board.specs.Told.{idle, seats_joined};

    ghost both = { seats_joined };

    ghost spent = { idle nothing };
}

/// A seat takes its rights again.
pub struct JoinsRights;

impl<T> Join<Seen<T>> for JoinsRights {
    ghost use Rattle.once_board.specs.Holds.{nothing};
    ghost use Rattle.once_board.specs.Told.{idle, rights_joined};

    ghost both = { rights_joined };

    ghost spent = { idle nothing };
}

/// A load on the word beside the places, which tells of two seats that were joined.
pub struct Settles<O> {
    marker: PhantomData<O>,
}

impl<T: Share, O: Owned> Play<Option<T>, Seen<T>> for Settles<O> {
    ghost use Rattle.once_board.specs.Told.{settle_told};

    ghost then = { settle_told T.fits O.owners };
}

/// An exchange of 2 for 3, which takes the value out.
pub struct Looks<O> {
    marker: PhantomData<O>,
}

impl<T: Share, O: Owned> Play<Option<T>, Seen<T>> for Looks<O> {
    ghost use Rattle.once_board.specs.Told.{look_told};

    ghost then = { look_told T.fits O.owners };
}

/// A store of 2 that brings the value home, by the seat that has its turn.
pub struct Learns;

impl<T: Share> Play<Option<T>, Seen<T>> for Learns {
    ghost use Rattle.once_board.specs.Told.{learn_told};

    ghost then = { learn_told T.fits };
}
