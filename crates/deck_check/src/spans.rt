//! Where each row of the fault table is looked for.
ghost use Rattle.std.specs.Prelude.{◌≡◌, ◌≤◌, ◌+◌, ◌/◌, ◌<◌, ◌^◌, length};
ghost use Rattle.deck_lines.specs.declared.head.Head.TheVariants as heads;
ghost use Rattle.deck_lines.specs.Deck.{body_of};
ghost use Rattle.deck_check.specs.FaultTable as spec;
ghost use Rattle.deck_check.specs.Order.{row_of};
ghost use Rattle.deck_check.specs.Readings as says;

use crate::candidates::width;
use crate::plants::{capacity, fuel, peak, projects, units};
use crate::readings::{cases, numbers, periods, weight, years};
use crate::table::FaultRow;
use deck_lines::{Deck, Head};

/// The numbers from one to another, both included.
#[derive(Clone, Copy, Debug, PartialEq, Eq)]
pub struct Span {
    pub from: u64,
    pub to: u64,
}

impl Span {
    /// The numbers from 1 on.
    fn upto(to: u64) -> Span
        ensures { spec.shown result ≡ spec.upto to }
    {
        Span { from: 1, to }
    }

    /// One number.
    fn only(number: u64) -> Span
        ensures { spec.shown result ≡ spec.only number }
    {
        Span {
            from: number,
            to: number,
        }
    }
}

/// The points of a SHAPE.
fn points(deck: &Deck, s: u64) -> u64
    ensures value { result ≡ length (says.numbers (body_of deck.now) (heads.Shape s)) / 2 }
    ensures small { result ≤ 64 }
{
    (numbers(deck, Head::Shape(s)).len() / 2) as u64
}

/// The units of a year, and its power.
fn units_up_to(deck: &Deck, t: u64) -> u64
    requires { t ≤ says.years (body_of deck.now) }
    ensures value { result ≡ says.units (body_of deck.now) t }
    ensures small { result ≤ 200000 }
{
    // Its reading tells the proof that there are at most 30 years.
    let _years = years(deck);
    units(deck, t)
}

/// The capacity of a year and its peak together, in MW.
fn power(deck: &Deck, t: u64) -> u64
    requires { t ≤ says.years (body_of deck.now) }
    ensures value { result ≡ says.capacity (body_of deck.now) t + says.peak (body_of deck.now) t }
    ensures small { result ≤ 9000000000 }
{
    // Its reading tells the proof that there are at most 30 years.
    let _years = years(deck);
    capacity(deck, t) + peak(deck, t)
}

impl FaultRow {
    /// Where the first number is looked for.
    pub(crate) fn a_span(self, deck: &Deck) -> Span
        ensures value { spec.shown result ≡ (row_of self (body_of deck.now)).a }
        ensures small { result.to < 2 ^ 62 }
    {
        match self {
            FaultRow::NoLoad | FaultRow::LoadCount | FaultRow::NoShape => Span::upto(years(deck)),
            FaultRow::Units | FaultRow::Power => Span::upto(years(deck)),
            FaultRow::NoCase | FaultRow::TunnelCount | FaultRow::TunnelHigh => {
                Span::upto(cases(deck))
            }
            FaultRow::ShapeForm => Span::upto(100),
            FaultRow::NoFuel | FaultRow::Blocks | FaultRow::StepUnit => Span::upto(52),
            FaultRow::NoPlant | FaultRow::Negative => Span::upto(40),
            FaultRow::Weights => Span::only(weight(deck)),
            FaultRow::NoGroup | FaultRow::NoProject => Span::upto(2),
            FaultRow::NoWater | FaultRow::WaterCount | FaultRow::StepWater => Span::upto(2),
            FaultRow::OldForm => Span::upto(3),
            _ => Span::only(0),
        }
    }

    /// Where the second number is looked for.
    pub(crate) fn b_span(self, deck: &Deck, a: u64) -> Span
        requires { a ≤ (row_of self (body_of deck.now)).a.to }
        ensures value { spec.shown result ≡ (row_of self (body_of deck.now)).b a }
        ensures small { result.to < 2 ^ 62 }
    {
        match self {
            FaultRow::NoShape => Span::upto(100),
            FaultRow::ShapeForm => Span::upto(points(deck, a)),
            FaultRow::NoFuel => Span::only(fuel(deck, a)),
            FaultRow::NoPlant | FaultRow::NoGroup => Span::upto(30),
            FaultRow::Negative => Span::upto(years(deck)),
            FaultRow::NoProject | FaultRow::NoWater | FaultRow::WaterCount => {
                Span::upto(projects(deck, a))
            }
            FaultRow::StepWater => Span::upto(projects(deck, a)),
            FaultRow::Units => Span::only(units_up_to(deck, a)),
            FaultRow::Power => Span::only(power(deck, a)),
            FaultRow::NoCase => Span::upto(3),
            FaultRow::TunnelCount | FaultRow::TunnelHigh => Span::upto(years(deck)),
            _ => Span::only(0),
        }
    }

    /// Where the third number is looked for.
    pub(crate) fn c_span(self, deck: &Deck, a: u64, b: u64) -> Span
        ensures value { spec.shown result ≡ (row_of self (body_of deck.now)).c a b }
        ensures small { result.to < 2 ^ 62 }
    {
        match self {
            FaultRow::NoWater | FaultRow::WaterCount | FaultRow::StepWater => {
                Span::upto(periods(deck))
            }
            FaultRow::TunnelHigh => Span::upto(width(deck) as u64),
            _ => Span::only(0),
        }
    }
}
