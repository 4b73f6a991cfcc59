//! Laws of every play, each as the contract of a function.
ghost use Rattle.std.specs.Prelude.{ℕ};
ghost use Rattle.lab_tasks.specs.declared.sets.Rules.{Rules};
ghost use Rattle.lab_schedules.specs.declared.places.Place.{Place};
ghost use Rattle.lab_schedules.specs.Laws.{ComputingIsCounted, OnlyTheDoerComputes, TimeWaits};
ghost use Rattle.lab_schedules.specs.Plays.{Played};

/// Only the task that has the processor computes.
pub fn only_the_doer_computes()
    ensures { (rules : Rules) (p : Played) → OnlyTheDoerComputes rules p }
{}

/// Time waits for the task that has the processor, while that can act.
pub fn time_waits()
    ensures { (rules : Rules) (p : Played) → TimeWaits rules p }
{}

/// The time that passes while a task computes is given to its job, and to no other.
pub fn computing_is_counted()
    ensures { (p : Played) (task : ℕ) (place : Place) (rest from acts : ℕ) → ComputingIsCounted p task place rest from acts }
{}
