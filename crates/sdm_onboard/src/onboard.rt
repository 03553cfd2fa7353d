//! The computer: a supervisor, what was refused and so isn't supervised, and what stands at the interfaces. A call
//! that is refused changes nothing in the supervisor; what it asked is missing there, so the brake is commanded until
//! it is there.

ghost use Rattle.std.specs.Prelude.{◌≡◌, ◌⊎◌, IsTrue, IsOkAnd, OnOk};
ghost use Rattle.sdm_ride.specs.Happenings.{Happening, Record};
ghost use Rattle.sdm_rules.specs.declared.records.Event.TheVariants as record_kinds;
ghost use Rattle.sdm_onboard.specs.declared.messages.Message.TheVariants as messages;
ghost use Rattle.sdm_onboard.specs.Messages.{Changes, Follows, Takes};
ghost use Rattle.sdm_onboard.specs.Missing.{HoldsBrakes, IsBraked, IsMissingAsBefore, Remembers};
ghost use Rattle.sdm_onboard.specs.Missing.{RemembersOver, TakesRestriction};
ghost use Rattle.std.specs.Prelude.{IfOk};
ghost use Rattle.std.specs.FinMap as finite;
ghost use Rattle.sdm_rules.specs.TakeOver.{taken_over};

use crate::guard::is_relied_on;
use crate::messages::{Message, Odometry};
use crate::opening::OpeningFault;
use crate::orders::Orders;
use sdm_num::Reading;
use sdm_rules::{
    Authority, AuthorityFault, CycleFault, RestrictFault, Restriction, RevokeFault, Row,
    TakeOverFault,
};
use sdm_supervisor::Supervisor;
use std::fmt;
use thiserror::Error;

/// Why a reading isn't judged.
#[derive(Clone, Copy, Debug, Error)]
pub enum ReadingFault {
    #[error("out of range")]
    Range,
    /// Its time is that of the last one that was judged, so that it tells nothing new.
    #[error("time {0} again")]
    Repeated(u32),
    #[error("{0}")]
    Time(CycleFault),
}

/// Why a restriction isn't in force.
#[derive(Clone, Copy, Debug, Error)]
pub enum RestrictionFault {
    /// Its speed isn't from 1 to 500 km/h, which the supervisor asks of its caller.
    #[error("speed {0}")]
    Speed(u16),
    #[error("{0}")]
    Refused(RestrictFault),
}

/// What came of a message.
#[derive(Clone, Copy, Debug)]
pub enum News {
    Row(Row),
    NotJudged(ReadingFault),
    Overdue,
    Taken,
    AuthorityRefused(AuthorityFault),
    RestrictionRefused(RestrictionFault),
    RevocationRefused(RevokeFault),
    DataRefused(OpeningFault),
    NotTakenOver(TakeOverFault),
}

/// The computer.
#[derive(Drop)]
pub struct Onboard {
    supervisor: Supervisor,
    /// The last authority was refused.
    is_authority_missing: bool,
    /// A restriction was refused. This small computer keeps none to be set again, so it takes a new supervisor to run
    /// on.
    is_restriction_missing: bool,
    orders: Orders,
}

impl Onboard {
    /// The computer over a supervisor that was just opened. Before the first reading no row promises anything, so it
    /// brakes.
    pub fn over(supervisor: Supervisor) -> Onboard
        ensures supervisor { result.supervisor ≡ supervisor }
        ensures braked { IsBraked result.orders }
        ensures holds { HoldsBrakes result }
    {
        Onboard {
            supervisor,
            is_authority_missing: false,
            is_restriction_missing: false,
            orders: Orders::BRAKE,
        }
    }

    /// What stands at the interfaces.
    pub fn orders(&self) -> Orders
        ensures { result ≡ self.now.orders }
    {
        self.orders
    }

    /// Takes a message: the supervisor goes on as in a ride, and where the ride counts an order of the emergency brake or
    /// of the service brake, that brake stands at the interface. A refused authority is missing until one is taken, and a
    /// refused restriction for good. While one is the emergency brake stands, and under either brake the traction is off.
    pub fn take(&mut self, message: &Message) -> News
        ensures takes { (h : Happening) × Takes self.old message.now h self.new }
        ensures remembers { Remembers self.old message.now self.new }
    {
        match message {
            Message::Odometry(odometry) => self.take_odometry(odometry),
            Message::Overdue => self.overdue(),
            Message::Authority(authority) => self.take_authority(*authority),
            Message::Restriction(restriction) => self.take_restriction(*restriction),
            Message::Revocation(id) => self.revoke(*id),
        }
    }

    /// Changes to new data between two messages, with what came of the opening over them: the supervisor over them
    /// takes over and the old one ends. The new data bring an authority, so that none is missing any more. Where they
    /// are refused the old supervisor runs on, as where an authority is refused.
    pub fn change_data(&mut self, opened: Result<Supervisor, OpeningFault>) -> News
        requires fresh { IfOk opened (λ next. next.restrictions ≡ finite.empty) }
        ensures follows { (h : Happening) × Changes self.old opened h self.new }
        ensures remembers { RemembersOver self.old opened self.new }
        ensures taken { result ≡ News.Taken →
            IsOkAnd opened (λ next. self.new.supervisor ≡ taken_over next self.old.supervisor) }
        ensures changed { IsOkAnd opened (λ next. self.new.supervisor ≡ taken_over next self.old.supervisor)
            ⊎ (self.new.supervisor ≡ self.old.supervisor) }
        ensures stands { IsTrue self.old.orders.emergency → IsTrue self.new.orders.emergency }
        ensures serves { IsTrue self.old.orders.service → IsTrue self.new.orders.service }
        ensures refused { result ≡ News.Taken
            ⊎ (IsTrue self.new.is_authority_missing × IsTrue self.new.orders.emergency) }
    {
        let mut next = match opened {
            Ok(next) => next,
            Err(fault) => return self.miss_authority(News::DataRefused(fault)),
        };
        match next.take_over(&self.supervisor) {
            Ok(()) => {
                self.supervisor = next;
                self.is_authority_missing = false;
                News::Taken
            }
            Err(fault) => self.miss_authority(News::NotTakenOver(fault)),
        }
    }

    /// An authority that was refused, or came with data that were, is missing: the old one stays in force, and may be the
    /// longer or the faster one.
    fn miss_authority(&mut self, news: News) -> News
        ensures news { result ≡ news }
        ensures supervisor { self.new.supervisor ≡ self.old.supervisor }
        ensures authority { IsTrue self.new.is_authority_missing }
        ensures restriction { self.new.is_restriction_missing ≡ self.old.is_restriction_missing }
        ensures braked { IsBraked self.new.orders }
    {
        self.is_authority_missing = true;
        self.brake(news)
    }

    /// Orders both brakes.
    fn brake(&mut self, news: News) -> News
        ensures news { result ≡ news }
        ensures supervisor { self.new.supervisor ≡ self.old.supervisor }
        ensures missing { IsMissingAsBefore self.old self.new }
        ensures braked { IsBraked self.new.orders }
    {
        self.orders = Orders::BRAKE;
        news
    }

    /// A reading that can't be judged leaves the train without supervision, so it brakes. So does one with the time of the
    /// last one: from an odometer that sends the same again no new reading comes, and the time p runs out.
    fn take_odometry(&mut self, odometry: &Odometry) -> News
        ensures takes { (h : Happening) × Takes self.old (messages.Odometry odometry.now) h self.new }
        ensures remembers { Remembers self.old (messages.Odometry odometry.now) self.new }
    {
        let Some(reading) = odometry.reading() else {
            return self.brake(News::NotJudged(ReadingFault::Range));
        };
        if self.supervisor.last_time() == Some(odometry.time) {
            return self.brake(News::NotJudged(ReadingFault::Repeated(odometry.time)));
        }
        match self.judge(&reading) {
            Ok(row) => News::Row(row),
            Err(fault) => self.brake(News::NotJudged(ReadingFault::Time(fault))),
        }
    }

    /// A refused reading changes nothing.
    fn judge(&mut self, reading: &Reading) -> Result<Row, CycleFault>
        ensures follows { Follows self.old (Record (record_kinds.Read reading.now)) self.new }
        ensures unsupervised { OnOk result (IsTrue self.old.is_authority_missing
            ⊎ IsTrue self.old.is_restriction_missing → IsTrue self.new.orders.emergency) }
        ensures missing { IsMissingAsBefore self.old self.new }
        ensures holds { HoldsBrakes self.old → HoldsBrakes self.new }
    {
        let row = self.supervisor.cycle(reading)?;
        let is_relied_on = is_relied_on(&self.supervisor, &row, reading);
        let is_unsupervised = self.is_authority_missing || self.is_restriction_missing;
        self.orders = Orders::of(&row, is_relied_on, is_unsupervised);
        Ok(row)
    }

    /// The commands of the last row are too old to be relied on.
    fn overdue(&mut self) -> News
        ensures takes { (h : Happening) × Takes self.old messages.Overdue h self.new }
        ensures remembers { Remembers self.old messages.Overdue self.new }
    {
        self.brake(News::Overdue)
    }

    fn take_authority(&mut self, authority: Authority) -> News
        ensures takes { (h : Happening) × Takes self.old (messages.Authority authority) h self.new }
        ensures remembers { Remembers self.old (messages.Authority authority) self.new }
        ensures refused { result ≡ News.Taken
            ⊎ (IsTrue self.new.is_authority_missing × IsTrue self.new.orders.emergency) }
    {
        match self.supervisor.authority(authority) {
            Ok(()) => {
                self.is_authority_missing = false;
                News::Taken
            }
            Err(fault) => self.miss_authority(News::AuthorityRefused(fault)),
        }
    }

    fn take_restriction(&mut self, restriction: Restriction) -> News
        ensures takes { (h : Happening) × Takes self.old (messages.Restriction restriction) h self.new }
        ensures remembers { Remembers self.old (messages.Restriction restriction) self.new }
        ensures refused { result ≡ News.Taken
            ⊎ (IsTrue self.new.is_restriction_missing × IsTrue self.new.orders.emergency) }
    {
        match self.restrict(restriction) {
            Ok(()) => News::Taken,
            Err(fault) => {
                self.is_restriction_missing = true;
                self.brake(News::RestrictionRefused(fault))
            }
        }
    }

    /// The supervisor asks its caller for a speed from 1 to 500 km/h.
    #[tactic(auto, using(crate::proofs::Taking::unread_restriction))]
    fn restrict(&mut self, restriction: Restriction) -> Result<(), RestrictionFault>
        ensures takes { (h : Happening) × Takes self.old (messages.Restriction restriction) h self.new }
        ensures accepted { OnOk result (TakesRestriction self.old.supervisor restriction) }
        ensures orders { self.new.orders ≡ self.old.orders }
        ensures missing { IsMissingAsBefore self.old self.new }
    {
        if restriction.speed < 1 || restriction.speed > 500 {
            return Err(RestrictionFault::Speed(restriction.speed));
        }
        self.supervisor
            .restrict(restriction)
            .map_err(RestrictionFault::Refused)
    }

    /// Where it is refused, the restriction stays in force, which brakes sooner and never later.
    fn revoke(&mut self, id: u16) -> News
        ensures takes { (h : Happening) × Takes self.old (messages.Revocation id) h self.new }
        ensures remembers { Remembers self.old (messages.Revocation id) self.new }
    {
        match self.supervisor.revoke(id) {
            Ok(()) => News::Taken,
            Err(fault) => News::RevocationRefused(fault),
        }
    }
}

impl fmt::Display for News {
    fn fmt<W: fmt::Write>(&self, f: &mut fmt::Formatter<W>) -> fmt::Result {
        match self {
            News::Row(row) => write_row(f, row),
            News::NotJudged(fault) => write!(f, "not judged, {fault}"),
            News::Overdue => write!(f, "overdue"),
            News::Taken => write!(f, "taken"),
            News::AuthorityRefused(fault) => write!(f, "refused, {fault}"),
            News::RestrictionRefused(fault) => write!(f, "refused, {fault}"),
            News::RevocationRefused(fault) => write!(f, "refused, {fault}"),
            News::DataRefused(fault) => write!(f, "refused, {fault}"),
            News::NotTakenOver(fault) => write!(f, "refused, {fault}"),
        }
    }
}

fn write_row<W: fmt::Write>(f: &mut fmt::Formatter<W>, row: &Row) -> fmt::Result {
    write!(f, "{:?} {:?}, ", row.state, row.held.status)?;
    write!(
        f,
        "{}",
        if row.covered {
            "covered"
        } else {
            "not covered"
        }
    )?;
    match row.ebi {
        Some(mm) => write!(f, ", EBI {mm}"),
        None => Ok(()),
    }
}
