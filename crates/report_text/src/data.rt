//! What a report is made of.
use checked_deck::{Name, PlantId};
use cost_terms::{Built, CaseTable, Ran};
use plan_program::Solved;
use plant_data::{Config, Listed, Row, Tunnel};

/// What a plant, a thermal candidate or a hydro group generates in a year.
#[derive(Clone, Copy, Debug)]
pub struct Generation {
    pub id: PlantId,
    pub name: Name,
    /// In MWh.
    pub energy: u64,
}

/// The generations of a year: existing plants, thermal candidates and hydro groups, each by number.
pub type Generations = Listed<Generation>;

/// A year of the chosen plan.
#[derive(Debug, Drop)]
pub struct PlanYear {
    /// The planned configuration.
    pub config: Config,
    /// The tunnel of the case in this year.
    pub tunnel: Tunnel,
    /// What its additions cost.
    pub built: Built,
    /// What running it costs.
    pub ran: Ran,
    /// What its simulation answered.
    pub row: Row,
    /// What its plants generate.
    pub generations: Generations,
}

/// What is reported of a case.
#[derive(Debug, Drop)]
pub struct CaseReport {
    /// The chosen plan from year 1 on, and nothing where there is no plan.
    pub years: Listed<PlanYear>,
    /// The greatest count of each candidate.
    pub greatest: Config,
    /// How many hydro conditions have their energy not served printed, 0 to 5; 0 in version 1.
    pub conditions: u64,
    /// The accepted configurations of the years.
    pub table: CaseTable,
    /// Their costs-to-come, and the chosen plan or the first year that none reaches.
    pub solved: Solved,
}
