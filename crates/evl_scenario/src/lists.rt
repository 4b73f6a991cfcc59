//! The lists of a board, as a scenario has them.
ghost use Rattle.std.specs.Prelude.{◌≡◌, ◌++◌, ◌∷◌, [], false, map, OnOk, string_bytes};
ghost use Rattle.toml.specs.View.{items_of};
ghost use Rattle.evl_scenario.specs.Writings.{items_text, list_data, pairs_text, value_text};

use crate::value_texts::KindText;
use evl_base::MutexKind;
use std::alloc::{AllocError, Allocator};

/// The things that can be in a list of a scenario.
pub trait Listed: Copy {
    ghost use Rattle.toml.specs.Data.{Data};
    ghost use Rattle.std.specs.Prelude.{◌≡◌, ◌++◌, OnOk, string_bytes};
    ghost use Rattle.evl_scenario.specs.Writings.{value_text};

    ghost data_of: { Self → Data };

    /// Writes the value after a text. `AllocError` where the text couldn't grow; what it holds then isn't known.
    fn write_to<A: Allocator>(self, text: &mut String<A>) -> Result<(), AllocError>
        ensures { OnOk result (string_bytes text.new ≡ string_bytes text.old ++ value_text (data_of self)) };
}

impl Listed for u32 {
    ghost use Rattle.evl_scenario.specs.Writings.{whole_number};

    ghost data_of = { whole_number };

    fn write_to<A: Allocator>(self, text: &mut String<A>) -> Result<(), AllocError> {
        text.write(self)
    }
}

impl Listed for u8 {
    ghost use Rattle.evl_scenario.specs.Writings.{whole_number};

    ghost data_of = { whole_number };

    fn write_to<A: Allocator>(self, text: &mut String<A>) -> Result<(), AllocError> {
        text.write(self)
    }
}

impl Listed for (u16, u16) {
    ghost use Rattle.evl_scenario.specs.Writings.{ring_data};

    ghost data_of = { ring_data };

    fn write_to<A: Allocator>(self, text: &mut String<A>) -> Result<(), AllocError> {
        let (inbound, outbound) = self;
        write!(text, "[{inbound}, {outbound}]")
    }
}

impl Listed for MutexKind {
    ghost use Rattle.toml.specs.Data.{string};
    ghost use Rattle.evl_scenario.specs.Writings.{kind_text};

    ghost data_of = { λ kind. string (kind_text kind) };

    fn write_to<A: Allocator>(self, text: &mut String<A>) -> Result<(), AllocError> {
        let kind = KindText(self);
        write!(text, "\"{kind}\"")
    }
}

// Writes the values that come after the first one, and the end of the list.
fn write_others<A: Allocator, T: Listed>(
    text: &mut String<A>,
    others: &[T],
) -> Result<(), AllocError>
    ensures { OnOk result (string_bytes text.new ≡ string_bytes text.old ++ items_text false (items_of (map T.data_of others.now))) }
{
    for value in others {
        text.push_str(", ")?;
        value.write_to(text)?;
    }
    text.push_str("]")
}

// Writes a list.
fn write_list<A: Allocator, T: Listed>(text: &mut String<A>, values: &[T]) -> Result<(), AllocError>
    ensures { OnOk result (string_bytes text.new ≡ string_bytes text.old ++ value_text (list_data T.data_of values.now)) }
{
    text.push_str("[")?;
    match values {
        [] => text.push_str("]"),
        [first, others @ ..] => {
            first.write_to(text)?;
            write_others(text, others)
        }
    }
}

/// Writes a key with a list on a line of its own. `AllocError` where the text couldn't grow; what it holds then isn't
/// known.
pub fn write_list_pair<A: Allocator, T: Listed>(
    text: &mut String<A>,
    key: &str,
    values: &[T],
) -> Result<(), AllocError>
    ensures { OnOk result (string_bytes text.new ≡ string_bytes text.old ++ pairs_text ((key.now, list_data T.data_of values.now) ∷ [])) }
{
    write!(text, "{key} = ")?;
    write_list(text, values)?;
    text.push_str("\n")
}
