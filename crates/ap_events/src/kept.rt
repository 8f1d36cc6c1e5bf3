//! Earlier books of a session, and the event that includes one.
ghost use Rattle.std.specs.Prelude.{◌≡◌, ◌++◌, [], codes, true, IfOk, OnErr, option_map};
ghost use Rattle.ap_list.specs.Lists.{Each, lookup_by};
ghost use Rattle.ap_value.specs.Values.{bytes_eq};
ghost use Rattle.ap_world.specs.Sound.{HasFunctions};
ghost use Rattle.ap_world.specs.World.{Shown, are_distinct, function_of};
ghost use Rattle.ap_stated.specs.declared.refusing.Refusal.{Refusal};
ghost use Rattle.ap_plain.specs.Ends.{Did, refused_alone};
ghost use Rattle.ap_events.specs.Books.{book_of, include_title, include_of, included_by, include_event};

use ap_list::{Bytes, NoMemory};
use ap_plain::{Outcome, Refusal, refused_alone, texts, without_drops};
use ap_reader::{Form, items, string};
use ap_rules::Ruled;
use ap_world::{AddError, World};
use std::alloc::{AllocError, Global};
use std::marker::Model;

/// An earlier book of a session: its name and its kept world. Contracts see the two. Its type keeps that the world has
/// the functions of the ground world.
#[derive(Drop)]
pub struct KeptBook {
    name: Bytes,
    world: World,
}

impl Model for KeptBook {
    ghost use Rattle.std.specs.Prelude.{ℕ, List};
    ghost use Rattle.std.specs.Coded.{codes};
    ghost use Rattle.ap_term.specs.contracts.term.Term as term;
    ghost use Rattle.ap_value.specs.contracts.value.Value as value;
    ghost use Rattle.ap_world.specs.Sound.{HasFunctions};
    ghost use Rattle.ap_world.specs.World.{Shown, function_of};

    ghost Value = { List ℕ × Shown };

    ghost coded = { Prim.hlevel (codes, term.the_row.coded, value.the_row.coded) };

    ghost view = { λ b. (b.name, b.world) };

    ghost invariant = { λ b. HasFunctions (function_of b.world.entries) };
}

impl KeptBook {
    /// A book by its name and its kept world, which has the functions of the ground world. Takes no memory.
    pub fn new(name: Bytes, world: World) -> KeptBook
        requires { HasFunctions (function_of world.entries) }
        ensures { result ≡ (name, world) }
    {
        KeptBook { name, world }
    }

    /// The book's name, lent.
    pub fn name(&self) -> &[u8]
        ensures { result.now ≡ self.now.0 }
    {
        self.name.as_slice()
    }

    /// The book's kept world, lent.
    pub fn world(&self) -> &World
        ensures { result.now ≡ self.now.1 }
    {
        &self.world
    }

    /// The book's kept world. Takes no memory.
    pub fn into_world(self) -> World
        ensures { result ≡ self.1 }
    {
        let KeptBook { world, .. } = self;
        world
    }

    /// The kept world has the functions of the ground world. Costs nothing: a caller's proof learns it so.
    pub fn recall_functions(&self)
        ensures { HasFunctions (function_of self.now.1.entries) }
    {
        let _ = &self.world;
    }
}

/// The names of each kept world are distinct. A step for each book.
pub(crate) fn have_distinct_names(earlier: &[KeptBook])
    ensures { Each (λ b. are_distinct b.1.entries ≡ true) earlier.now }
{
    for book in earlier {
        book.world().recall_distinct_names();
    }
}

/// The kept world of the first book of a name. Takes no memory.
fn find<'a>(earlier: &'a [KeptBook], name: &[u8]) -> Option<&'a World>
    ensures { option_map (λ w. w.now) result ≡ lookup_by bytes_eq earlier.now name.now }
{
    for book in earlier {
        if name == book.name() {
            return Some(book.world());
        }
    }
    None
}

/// The name in an `include-book`, or `None` where it isn't `(include-book "NAME")`. Takes no memory.
fn book_of(form: &Form) -> Option<&[u8]>
    ensures { option_map (λ n. n.now) result ≡ book_of form.now }
{
    match items(form) {
        Some([_, name]) => string(name),
        _ => None,
    }
}

/// The title of the event.
#[tactic(auto, unfolding(crate::specs::Books::include_title))]
fn include_title(alloc: Global, name: &[u8]) -> Result<Bytes, NoMemory>
    ensures { IfOk result (λ text. text ≡ include_title name.now) }
{
    let mut text = Bytes::from_slice(alloc, b"INCLUDE-BOOK ")?;
    text.extend(name)?;
    Ok(text)
}

/// Includes a book's kept world by its name: it is refused where another entry stands under a name of it, masks aside.
/// Where it is refused, or memory is wanting, the world is as it was. See the manual's topic `include-book`.
pub(crate) fn include_of(
    alloc: Global,
    w: &mut Ruled,
    name: &[u8],
    kept: &World,
) -> Result<Outcome, NoMemory>
    ensures done { IfOk result (Did (include_of w.old name.now kept.now) w.old w.new) }
    ensures alone { IfOk result (λ e. e.drops ≡ []) }
    ensures error { OnErr result (w.new ≡ w.old) }
{
    let title = include_title(alloc, name)?;
    let text = texts::said_line(alloc, title.as_slice(), b" admitted")?;
    match w.include_world(alloc, kept) {
        Ok(()) => Ok(without_drops(alloc, text, true)),
        Err(AddError::NameTaken) => { refused_alone(alloc, title.as_slice(), Refusal::NameTaken) }
        Err(AddError::NoMemory) => Err(AllocError),
    }
}

/// A book that isn't among the earlier ones.
fn unknown_book(alloc: Global, name: &[u8]) -> Result<Outcome, NoMemory>
    ensures done { IfOk result (λ e. (w : Shown) → Did (refused_alone (include_title name.now) Refusal.NoSuchBook) w w e) }
    ensures alone { IfOk result (λ e. e.drops ≡ []) }
{
    let title = include_title(alloc, name)?;
    refused_alone(alloc, title.as_slice(), Refusal::NoSuchBook)
}

/// Includes the first earlier book of a name.
fn include_named(
    alloc: Global,
    w: &mut Ruled,
    earlier: &[KeptBook],
    name: &[u8],
) -> Result<Outcome, NoMemory>
    ensures done { IfOk result (Did (included_by w.old name.now (lookup_by bytes_eq earlier.now name.now)) w.old w.new) }
    ensures alone { IfOk result (λ e. e.drops ≡ []) }
    ensures error { OnErr result (w.new ≡ w.old) }
{
    match find(earlier, name) {
        Some(kept) => include_of(alloc, w, name, kept),
        None => unknown_book(alloc, name),
    }
}

/// Does the event `include-book`, with the earlier books of the session.
#[tactic(auto, unfolding(crate::specs::Books::include_event))]
pub(crate) fn include_event(
    alloc: Global,
    w: &mut Ruled,
    earlier: &[KeptBook],
    f: &Form,
) -> Result<Outcome, NoMemory>
    ensures done { IfOk result (Did (include_event earlier.now w.old (book_of f.now)) w.old w.new) }
    ensures alone { IfOk result (λ e. e.drops ≡ []) }
    ensures error { OnErr result (w.new ≡ w.old) }
{
    match book_of(f) {
        Some(name) => include_named(alloc, w, earlier, name),
        None => refused_alone(alloc, b"INCLUDE-BOOK", Refusal::BadEvent),
    }
}
