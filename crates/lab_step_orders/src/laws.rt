//! The laws that all orders of atomic steps keep. Each is the contract of a function without a body.
ghost use Rattle.lab_step_orders.specs.StepLaws.{NoStaxIsShared, OneHasTheMutex, WordsStand};
ghost use Rattle.lab_step_orders.specs.WholeVisits.{VisitsAreWhole};

/// Wherever the callers' steps lead, each word has a world of `evl_words`: events of its seats lead there, each
/// an atomic step that its seat may make.
pub fn words_stand()
    ensures { WordsStand }
{}

/// Wherever the callers' steps lead, two that hold one stax are of one stage.
pub fn no_stax_is_shared()
    ensures { NoStaxIsShared }
{}

/// Wherever the callers' steps lead, no two have one mutex.
pub fn one_has_the_mutex()
    ensures { OneHasTheMutex }
{}

/// Callers that take the core for each visit by a turn of its own, and wait for it, end in the ways in which they do where
/// each visit is one turn. If some give up where another has the core, they may end in more ways.
pub fn visits_are_whole()
    ensures { VisitsAreWhole }
{}
