//! The shape of a judge line, taken token by token, with no tree between. Of a line that hasn't the shape nothing is
//! taken, nor of one that has it with an escape: the line's tree shows what it is, or what is wrong with it.
ghost use Rattle.std.specs.Prelude.{◌≡◌, ◌∷◌, [], ◌++◌, ◌<◌, List, Some, Ok, IfSome, OnSome, map, length};
ghost use Rattle.json.specs.Token.{begin_array, end_array};
ghost use Rattle.json.specs.Json.{object};
ghost use Rattle.json.specs.Json as json;
ghost use Rattle.album_lines.specs.Fields.{text_of, whole_of};
ghost use Rattle.album_lines.specs.Shapes.{SpelledEntry, spelled_entry, entry_shape_of, entry_shapes_of};
ghost use Rattle.album_lines.specs.JudgeShape.{spelled_group, spelled_judge, group_shape_of, judge_shape_of, groups_shape_of};
ghost use Rattle.album_lines.specs.Trees.{data_in};
ghost use Rattle.album_lines.specs.Tokens.{line_shape_of, Takes, TakesAll, AreFields, TakesField, TakesFields};

use crate::judge_shape::{GroupShape, JudgeShape, are_distinct, holder};
use crate::shapes::{EntryShape, sort};
use crate::tokens::Tokens;
use album_eval::Policy;
use album_lists::Holder;
use std::alloc::Global;
use std::str;

/// Room for the entries of most lines, and for the members of most groups.
const ENTRIES_AT_FIRST: usize = 16;

const MEMBERS_AT_FIRST: usize = 16;

/// The fields of a line, as far as they were taken: of two members with one name the last.
#[derive(Drop)]
pub(crate) struct Fields<'a> {
    pub(crate) entries: Option<Vec<EntryShape<'a>>>,
    pub(crate) holder: Option<Holder>,
    pub(crate) head_group: Option<u64>,
    pub(crate) groups: Option<Vec<GroupShape<'a>>>,
    pub(crate) owner: Option<&'a str>,
    pub(crate) who: Option<&'a str>,
    pub(crate) mask: Option<u64>,
    pub(crate) policy: Option<Policy>,
}

/// The shape of the line, where it has it. Where memory is refused nothing is taken either.
pub(crate) fn shape_of_tokens<'a>(alloc: Global, bytes: &'a [u8]) -> Option<JudgeShape<'a>>
    ensures { IfSome result (λ shape. line_shape_of bytes.now ≡ Ok (spelled_judge shape)) }
{
    let Ok(text) = str::from_utf8(bytes) else {
        return None;
    };
    let mut tokens = Tokens::of(text);
    tokens.take_object()?;
    let fields = take_fields(alloc, &mut tokens)?;
    if !tokens.are_over() {
        return None;
    }
    shape_of(alloc, fields)
}

/// The shape that the fields make, where none is missing that must be there.
fn shape_of<'a>(alloc: Global, fields: Fields<'a>) -> Option<JudgeShape<'a>>
    ensures { IfSome result (λ shape. (ms : json.Members) → AreFields ms fields.entry
        → judge_shape_of (data_in (object ms)) ≡ Ok (spelled_judge shape)) }
{
    Some(JudgeShape {
        entries: fields.entries?,
        holder: fields.holder.unwrap_or(Holder::Plain),
        head_group: fields.head_group?,
        groups: fields.groups.unwrap_or(Vec::new(alloc)),
        owner: fields.owner?,
        who: fields.who?,
        mask: fields.mask?,
        policy: fields.policy.unwrap_or(Policy::One),
    })
}

/// The fields of an object, up to its brace.
fn take_fields<'a>(alloc: Global, tokens: &mut Tokens<'a>) -> Option<Fields<'a>>
    ensures { IfSome result (λ fields. TakesFields tokens.old fields tokens.new) }
{
    let mut fields = Fields {
        entries: None,
        holder: None,
        head_group: None,
        groups: None,
        owner: None,
        who: None,
        mask: None,
        policy: None,
    };
    while let Some(key) = tokens.take_key()? {
        take_field(alloc, tokens, key, &mut fields)?;
    }
    Some(fields)
}

/// The field of this name.
fn take_field<'a>(
    alloc: Global,
    tokens: &mut Tokens<'a>,
    key: &str,
    fields: &mut Fields<'a>,
) -> Option<()>
    ensures { IfSome result (λ _. TakesField key.now tokens.old tokens.new fields.old fields.new) }
{
    match key {
        "entries" => fields.entries = Some(take_entries(alloc, tokens)?),
        "kind" => fields.holder = Some(holder(take_text(tokens)?)?),
        "group" => fields.head_group = Some(take_whole(tokens)?),
        "groups" => fields.groups = Some(take_groups(alloc, tokens)?),
        "owner" => fields.owner = Some(take_text(tokens)?),
        "who" => fields.who = Some(take_text(tokens)?),
        "mask" => fields.mask = Some(take_whole(tokens)?),
        "policy" => fields.policy = Some(Policy::of(take_whole(tokens)?)?),
        _ => return None,
    }
    Some(())
}

/// A list of groups, no number twice.
fn take_groups<'a>(alloc: Global, tokens: &mut Tokens<'a>) -> Option<Vec<GroupShape<'a>>>
    ensures { IfSome result (λ groups.
        Takes 3 (λ d. groups_shape_of (Some d)) tokens.old (map spelled_group groups.items) tokens.new) }
{
    take_list(tokens)?;
    let groups = take_each_group(alloc, tokens)?;
    if !are_distinct(alloc, &groups).ok()? {
        return None;
    }
    Some(groups)
}

fn take_each_group<'a>(alloc: Global, tokens: &mut Tokens<'a>) -> Option<Vec<GroupShape<'a>>>
    ensures { IfSome result (λ groups.
        TakesAll 2 group_shape_of tokens.old (map spelled_group groups.items) tokens.new) }
{
    let mut groups = Vec::new(alloc);
    while !tokens.take_end()? {
        groups.push(take_group(alloc, tokens)?).ok()?;
    }
    Some(groups)
}

fn take_group<'a>(alloc: Global, tokens: &mut Tokens<'a>) -> Option<GroupShape<'a>>
    ensures { IfSome result (λ group. Takes 2 group_shape_of tokens.old (spelled_group group) tokens.new) }
{
    take_list(tokens)?;
    let number = take_whole(tokens)?;
    take_list(tokens)?;
    let members = take_each_text(alloc, tokens)?;
    take_end(tokens)?;
    Some(GroupShape { number, members })
}

fn take_each_text<'a>(alloc: Global, tokens: &mut Tokens<'a>) -> Option<Vec<&'a str>>
    ensures { IfSome result (λ texts.
        TakesAll 0 text_of tokens.old (map (λ t. t.now) texts.items) tokens.new) }
{
    let mut texts = Vec::with_capacity(alloc, MEMBERS_AT_FIRST).ok()?;
    while !tokens.take_end()? {
        texts.push(take_text(tokens)?).ok()?;
    }
    Some(texts)
}

/// A list of entries.
fn take_entries<'a>(alloc: Global, tokens: &mut Tokens<'a>) -> Option<Vec<EntryShape<'a>>>
    ensures { IfSome result (λ shapes.
        Takes 2 entry_shapes_of tokens.old (map spelled_entry shapes.items) tokens.new) }
{
    take_list(tokens)?;
    take_each_entry(alloc, tokens)
}

fn take_each_entry<'a>(alloc: Global, tokens: &mut Tokens<'a>) -> Option<Vec<EntryShape<'a>>>
    ensures { IfSome result (λ shapes.
        TakesAll 1 entry_shape_of tokens.old (map spelled_entry shapes.items) tokens.new) }
{
    let mut shapes = Vec::with_capacity(alloc, ENTRIES_AT_FIRST).ok()?;
    while !tokens.take_end()? {
        put_entry(tokens, &mut shapes)?;
    }
    Some(shapes)
}

/// Appends an entry to the shapes.
fn put_entry<'a>(tokens: &mut Tokens<'a>, shapes: &mut Vec<EntryShape<'a>>) -> Option<()>
    ensures { OnSome result ((entry : SpelledEntry)
        × (map spelled_entry shapes.new.items ≡ map spelled_entry shapes.old.items ++ entry ∷ [])
        × Takes 1 entry_shape_of tokens.old entry tokens.new) }
{
    take_list(tokens)?;
    let sort = sort(take_text(tokens)?)?;
    let who = take_text(tokens)?;
    let mask = take_whole(tokens)?;
    let flags = take_whole(tokens)?;
    take_end(tokens)?;
    let shape = EntryShape {
        sort,
        who,
        mask,
        flags,
    };
    shapes.push(shape).ok()?;
    Some(())
}

/// A whole number.
fn take_whole(tokens: &mut Tokens<'_>) -> Option<u64>
    ensures { IfSome result (λ n. Takes 0 whole_of tokens.old n tokens.new) }
{
    tokens.take_whole()
}

/// A text.
fn take_text<'a>(tokens: &mut Tokens<'a>) -> Option<&'a str>
    ensures { IfSome result (λ text. Takes 0 text_of tokens.old text.now tokens.new) }
{
    tokens.take_text()
}

/// The bracket that opens a list.
fn take_list(tokens: &mut Tokens<'_>) -> Option<()>
    ensures { OnSome result (tokens.old ≡ begin_array ∷ tokens.new) }
{
    tokens.take_list()
}

/// The bracket that closes one.
fn take_end(tokens: &mut Tokens<'_>) -> Option<()>
    ensures { OnSome result (tokens.old ≡ end_array ∷ tokens.new) }
{
    if tokens.take_end()? { Some(()) } else { None }
}
