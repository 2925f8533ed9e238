//! The names of each year, gathered from lines in any order.
ghost use Rattle.std.specs.Prelude.{◌≡◌, ◌≢◌, ◌↔◌, ℕ, ◌+◌, ◌<◌, ◌≤◌, [], All, IfOk, IfSome, List, None, OnOk, Option, length, map, slice_index_or, true, false};
ghost use Rattle.std.specs.List.Sorted.{IsPermutation, IsSortedByKey};
ghost use Rattle.deck_lines.specs.declared.line.CertLine.TheVariants.{Come};
ghost use Rattle.plan_certificate.specs.Gathered.{AreMarked, AreNamesOf, AreNumbered, IsAdded, IsAgainBelow, IsMarked, MarksAgain, key, key_cmp};

use crate::certificate::Named;
use deck_lines::CertLine;
use plant_data::{Config, Listed};
use std::alloc::{AllocError, Global};

/// A name with the place of its line, counted from 0.
#[derive(Clone, Copy)]
pub struct Numbered {
    pub named: Named,
    pub line: usize,
}

/// What is named in each year, and for each line whether it names a configuration again.
#[derive(Drop)]
pub struct Gathered {
    pub years: Vec<Listed<Named>>,
    pub again: Vec<bool>,
}

/// The name that a line says of a year, counted from 0.
fn named_by(line: &CertLine, year: usize) -> Option<Named>
    requires { year < 30 }
    ensures some { IfSome result (λ n. line.now ≡ Come (year + 1) n.config n.value) }
    ensures none { result ≡ None → (config : List ℕ) (value : Option ℕ) → line.now ≢ Come (year + 1) config value }
{
    let CertLine::Come {
        year: named,
        config,
        value,
    } = line
    else {
        return None;
    };
    if *named != year as u64 + 1 {
        return None;
    }
    Some(Named {
        config: *config,
        value: *value,
    })
}

/// Adds the name that a line at a place says of a year, counted from 0.
fn add_name(
    line: &CertLine,
    place: usize,
    year: usize,
    names: &mut Vec<Numbered>,
) -> Result<(), AllocError>
    requires { year < 30 }
    ensures { OnOk result (IsAdded line.now place year names.old.items names.new.items) }
{
    let Some(named) = named_by(line, year) else {
        return Ok(());
    };
    names.push(Numbered { named, line: place })?;
    Ok(())
}

/// The names of a year, counted from 0, in the order of the lines.
fn names_by(alloc: Global, lines: &[CertLine], year: usize) -> Result<Vec<Numbered>, AllocError>
    requires { year < 30 }
    ensures { IfOk result (λ names. AreNumbered lines.now year (length lines.now) names.items) }
{
    let mut names = Vec::new(alloc);
    for place in 0..lines.len() {
        add_name(&lines[place], place, year, &mut names)?;
    }
    Ok(names)
}

/// Puts names in the order of their configurations, those of one configuration in the order of their lines.
fn sort_names(names: &mut Vec<Numbered>)
    ensures permutation { IsPermutation names.old.items names.new.items }
    ensures sorted { IsSortedByKey key key_cmp names.new.items }
{
    names.sort_unstable_by_key(
        |name: &Numbered| -> (Config, usize)
            ensures { result ≡ key name.now }
        { (name.named.config, name.line) },
    );
}

/// Marks the line of a name that stands behind another of its configuration.
fn mark_if_same(before: &Numbered, name: &Numbered, marks: &mut Vec<bool>)
    requires { name.now.line < length marks.old.items }
    ensures len { length marks.new.items ≡ length marks.old.items }
    ensures marks { IsMarked before.now name.now marks.old.items marks.new.items }
{
    if before.named.config == name.named.config {
        marks[name.line] = true;
    }
}

/// Marks the line of each name that stands behind another of its configuration.
fn mark_repeats(names: &[Numbered], marks: &mut Vec<bool>)
    requires { All (λ m. m.line < length marks.old.items) names.now }
    ensures len { length marks.new.items ≡ length marks.old.items }
    ensures marks { AreMarked names.now (length names.now) marks.old.items marks.new.items }
{
    for i in 1..names.len() {
        mark_if_same(&names[i - 1], &names[i], marks);
    }
}

/// The names without their lines.
fn without_lines(alloc: Global, names: &[Numbered]) -> Result<Vec<Named>, AllocError>
    ensures { IfOk result (λ plain. plain.items ≡ map (λ n. n.named) names.now) }
{
    let mut plain = Vec::with_capacity(alloc, names.len())?;
    for name in names {
        plain.push(name.named)?;
    }
    Ok(plain)
}

/// The names of a year, counted from 0, in rising order, with a mark for each line that names one again.
fn gather_year(
    alloc: Global,
    lines: &[CertLine],
    year: usize,
    marks: &mut Vec<bool>,
) -> Result<Vec<Named>, AllocError>
    requires year { year < 30 }
    requires long { length marks.old.items ≡ length lines.now }
    ensures len { OnOk result (length marks.new.items ≡ length marks.old.items) }
    ensures names { IfOk result (λ names. AreNamesOf lines.now year names.items) }
    ensures marks { OnOk result (MarksAgain lines.now year marks.old.items marks.new.items) }
{
    let mut names = names_by(alloc, lines, year)?;
    sort_names(&mut names);
    mark_repeats(&names, marks);
    let plain = without_lines(alloc, &names)?;
    Ok(plain)
}

/// The names of all years, each year's in rising order, and the marks of the lines that name one again.
pub fn gather(alloc: Global, lines: &[CertLine], years: u64) -> Result<Gathered, AllocError>
    requires { years ≤ 30 }
    ensures years { IfOk result (λ g. length g.years.items ≡ years) }
    ensures names { IfOk result (λ g. (k : ℕ) → k < years → AreNamesOf lines.now k (slice_index_or g.years.items k [])) }
    ensures long { IfOk result (λ g. length g.again.items ≡ length lines.now) }
    ensures again { IfOk result (λ g. (line : ℕ) → (slice_index_or g.again.items line false ≡ true) ↔ IsAgainBelow lines.now years line) }
{
    let mut again = vec![in alloc; false; lines.len()]?;
    let mut entries = Vec::new(alloc);
    for year in 0..years as usize {
        let names = gather_year(alloc, lines, year, &mut again)?;
        entries.push(Listed::new(names))?;
    }
    Ok(Gathered {
        years: entries,
        again,
    })
}
