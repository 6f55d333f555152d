//! The parts of a JSON value: object = {name: value, ..}, list = [value, ..], a text, a number. What isn't there, or is
//! of another form, is a bad request.
ghost use Rattle.std.specs.Prelude.{◌≡◌, map, option_map, true, bytes_eq};
ghost use Rattle.std.specs.List.{list_any, list_all};
ghost use Rattle.json.specs.Value.{members_view};
ghost use Rattle.serde_json.specs.Data.{no_members};
ghost use Rattle.serde_json.specs.Find.{get, at};
ghost use Rattle.album_stamps.specs.Outcome.{Gives};
ghost use Rattle.album_lines.specs.Fields.{has_only, only_of, has, sized, field_of, item_of, text_of, whole_of, truth_of, is_nothing, is_list, list_of, under, standing_at};
ghost use Rattle.album_lines.specs.Trees.{members_in, value_data, items_data};

use crate::numbers::number;
use album_stamps::Refusal;
use json::Value;

/// An object with no other names than these.
///
/// # Errors
///
/// `BadRequest`, where the value is no object, or has another name.
pub fn only(value: &Value<'_>, names: &[&str]) -> Result<(), Refusal>
    ensures { Gives (λ _. true) result (only_of (map (λ n. n.now) names.now) (value_data value.now)) }
{
    let Value::Object(members) = value else {
        return Err(Refusal::BadRequest);
    };
    if !has_only_names(members, names) {
        return Err(Refusal::BadRequest);
    }
    Ok(())
}

fn has_only_names(members: &[(&str, Value<'_>)], names: &[&str]) -> bool
    ensures { result ≡ has_only (map (λ n. n.now) names.now) (members_in (members_view members.now) no_members) }
{
    are_known(members, names)
}

// The chain is a function of its own, where the clause that mirrors it is proved without a word.
fn are_known(members: &[(&str, Value<'_>)], names: &[&str]) -> bool
    ensures { result ≡ list_all (λ m. list_any (λ n. bytes_eq n.now m.0.now) names.now) members.now }
{
    members.iter().all(|member| is_known(names, member.0))
}

fn is_known(names: &[&str], name: &str) -> bool
    ensures { result ≡ list_any (λ n. bytes_eq n.now name.now) names.now }
{
    names.iter().any(|known| *known == name)
}

/// The member of an object that must be there.
///
/// # Errors
///
/// `BadRequest`, where the value is no object, or has no member of this name.
pub fn field<'v, 'a>(value: &'v Value<'a>, name: &str) -> Result<&'v Value<'a>, Refusal>
    ensures { Gives (λ v. value_data v.now) result (field_of name.now (value_data value.now)) }
{
    member(value, name).ok_or(Refusal::BadRequest)
}

/// The text under a name of an object.
///
/// # Errors
///
/// `BadRequest`, where nothing is there, or no text.
pub fn text_under<'a>(value: &Value<'a>, name: &str) -> Result<&'a str, Refusal>
    ensures { Gives (λ t. t.now) result (under text_of name.now (value_data value.now)) }
{
    text(field(value, name)?)
}

/// The whole number under a name of an object.
///
/// # Errors
///
/// `BadRequest`, where nothing is there, or no whole number.
pub fn whole_under(value: &Value<'_>, name: &str) -> Result<u64, Refusal>
    ensures { Gives (λ n. n) result (under whole_of name.now (value_data value.now)) }
{
    whole(field(value, name)?)
}

/// The member of an object that may be left out. Of two with one name the last counts.
pub fn member<'v, 'a>(value: &'v Value<'a>, name: &str) -> Option<&'v Value<'a>>
    ensures { option_map (λ v. value_data v.now) result ≡ get name.now (value_data value.now) }
{
    value.get(name)
}

/// Whether an object has a member of this name.
pub fn has(value: &Value<'_>, name: &str) -> bool
    ensures { result ≡ has name.now (value_data value.now) }
{
    member(value, name).is_some()
}

/// The item of a list that must be there.
///
/// # Errors
///
/// `BadRequest`, where the value is no list, or a shorter one.
pub fn item<'v, 'a>(value: &'v Value<'a>, i: usize) -> Result<&'v Value<'a>, Refusal>
    ensures { Gives (λ v. value_data v.now) result (item_of i (value_data value.now)) }
{
    nth(value, i).ok_or(Refusal::BadRequest)
}

/// The list under a name of an object.
///
/// # Errors
///
/// `BadRequest`, where nothing is there, or no list.
pub fn list_under<'v, 'a>(value: &'v Value<'a>, name: &str) -> Result<&'v Vec<Value<'a>>, Refusal>
    ensures { Gives (λ v. items_data v.now.items) result (under list_of name.now (value_data value.now)) }
{
    list(field(value, name)?)
}

/// The text that an item of a list is.
pub(crate) fn text_at<'a>(value: &Value<'a>, i: usize) -> Result<&'a str, Refusal>
    ensures { Gives (λ t. t.now) result (standing_at text_of i (value_data value.now)) }
{
    text(item(value, i)?)
}

/// The whole number that an item of a list is.
pub(crate) fn whole_at(value: &Value<'_>, i: usize) -> Result<u64, Refusal>
    ensures { Gives (λ n. n) result (standing_at whole_of i (value_data value.now)) }
{
    whole(item(value, i)?)
}

fn nth<'v, 'a>(value: &'v Value<'a>, i: usize) -> Option<&'v Value<'a>>
    ensures { option_map (λ v. value_data v.now) result ≡ at i (value_data value.now) }
{
    value.at(i)
}

/// The text that the value is.
///
/// # Errors
///
/// `BadRequest`, where it is none.
pub fn text<'a>(value: &Value<'a>) -> Result<&'a str, Refusal>
    ensures { Gives (λ t. t.now) result (text_of (value_data value.now)) }
{
    value.as_str().ok_or(Refusal::BadRequest)
}

/// A whole number that fits 64 bits.
///
/// # Errors
///
/// `BadRequest`, where the value is none, or its number has a point, an exponent or a minus.
pub fn whole(value: &Value<'_>) -> Result<u64, Refusal>
    ensures { Gives (λ n. n) result (whole_of (value_data value.now)) }
{
    let numeral = value.as_number().ok_or(Refusal::BadRequest)?;
    let number = number(numeral).ok_or(Refusal::BadRequest)?;
    number.as_u64().ok_or(Refusal::BadRequest)
}

/// True or false.
///
/// # Errors
///
/// `BadRequest`, where the value is neither.
pub fn truth(value: &Value<'_>) -> Result<bool, Refusal>
    ensures { Gives (λ b. b) result (truth_of (value_data value.now)) }
{
    value.as_bool().ok_or(Refusal::BadRequest)
}

/// Whether the value is nothing. A number that is out of range is nothing too; no line that is read has one.
pub fn is_nothing(value: &Value<'_>) -> bool
    ensures { result ≡ is_nothing (value_data value.now) }
{
    match value {
        Value::Null => true,
        Value::Number(text) => number(text).is_none(),
        Value::Bool(_) | Value::String(_) | Value::Array(_) | Value::Object(_) => false,
    }
}

/// Whether the value is a list.
pub fn is_list(value: &Value<'_>) -> bool
    ensures { result ≡ is_list (value_data value.now) }
{
    matches!(value, Value::Array(_))
}

/// A list of so many items.
///
/// # Errors
///
/// `BadRequest`, where the value is no list, or has more or fewer.
#[tactic(auto, using(crate::proofs::Reading::len_of_items))]
pub fn sized_list(value: &Value<'_>, len: usize) -> Result<(), Refusal>
    ensures { Gives (λ _. true) result (sized len (value_data value.now)) }
{
    if list(value)?.len() != len {
        return Err(Refusal::BadRequest);
    }
    Ok(())
}

/// The items of a list.
///
/// # Errors
///
/// `BadRequest`, where the value is no list.
pub fn list<'v, 'a>(value: &'v Value<'a>) -> Result<&'v Vec<Value<'a>>, Refusal>
    ensures { Gives (λ v. items_data v.now.items) result (list_of (value_data value.now)) }
{
    let Value::Array(items) = value else {
        return Err(Refusal::BadRequest);
    };
    Ok(items)
}
