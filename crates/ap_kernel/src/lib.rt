//! The kernel: every step of every proof engine goes through these calls, so that nothing else need be
//! believed. Each is proved from what terms mean. It is the way of LCF.
//!
//! An [`Equiv`] says a [`Sequent`]: that its two sides mean the same, or are both `nil` or both not, wherever
//! its facts hold. Anyone can write a sequent down; the field of an [`Equiv`] is private, so that the rows
//! below alone make one, and each row promises that its answer stands in the world that it is handed, and
//! exactly what the answer says. What a row asks is proved by its caller: that the objects handed in stand,
//! that terms and facts are terms of the world, and the row's own conditions. No row refuses; want of memory
//! alone keeps it from answering.
//!
//! # The rows that answer an equivalence
//!
//! | row | leads from, to | what it copies |
//! |---|---|---|
//! | [`refl`] | a term to itself | the term, once for each side |
//! | [`trans`] | the first left side to the last right side | nothing |
//! | [`weaken_mode`] | the same, equality as equivalence under `iff` | nothing |
//! | [`cong`] | a call to the call of what its arguments lead to | the function's name, for each side, and the arguments' sides; where all are unchanged one side, and the call |
//! | [`branch`] | an `if` to the `if` of what its parts lead to | nothing |
//! | [`choose_branch`] | an `if` to the branch that the constant chooses to which its test leads | the parts, and the branch that is chosen once more |
//! | [`by_fact`] | a fact's term to `'T` or `'NIL` | the fact's term |
//! | [`by_type`] | a term to the one value that its mask leaves | the term |
//! | [`cons_equal`] | an equation to what its sides, a fact or the parts of conses say | the equation, and the conses' parts |
//! | [`if_shape`] | an `if` to the branch that is chosen, or to its simplest shape | the `if`, and what the right side has of it |
//! | [`double_not`] | a term under two calls of `not` to the term | the term, once for each side |
//! | [`open_def`] | a call of a defined function to its body's instance | the formals' names |
//! | [`apply_theorem`] | the instance of a theorem's left side to that of its right side | the heads of the instances |
//! | [`fold`] | a call on constants to its value | nothing |
//! | [`by_certificate`] | a call of `<` or of `equal` to `'T` or `'NIL`, by polynomials that can't all hold | the term |
//! | [`both_not_less`] | an equation of integers to `'T`, where neither side is less | nothing |
//!
//! Of some equivalences it is known that their two sides are one term ([`Equiv::is_unchanged`]): [`refl`] makes
//! them, and [`trans`], [`weaken_mode`], [`cong`] and [`branch`] where all that they are handed are such. So who
//! rewrites a term needn't build again what didn't change.
//!
//! Each other object keeps how it was made, as a [`Derivation`]: the row, its arguments, and how the objects were
//! made that the row was handed. The arguments are kept at a count each; a derivation is moved on from what is
//! handed in by value, and else shared. Where an equivalence's sides are known to be one term nothing is kept, since
//! it is [`refl`] of its own parts ([`why_of`]).
//!
//! An equivalence owns its sides, so that it can be taken apart and its terms moved into the next one. A row
//! that is lent a term copies it, and a copy shares the arguments and the names: it costs a count for each,
//! whatever the term's size. What is handed in by value is moved. Facts are shared and never copied, but
//! where [`assume`] makes a longer list.
//!
//! # The rows that answer a reduction
//!
//! A [`Reduction`] says an [`Inference`]: that its first clause is valid where all that it is reduced to are.
//!
//! | row | leads from a clause to | what it copies |
//! |---|---|---|
//! | [`rewrite_literal`] | the clause with a literal as an equivalence leads from it | the other literals |
//! | [`keep`] | itself | the literals |
//! | [`drop_literal`] | the clause without a literal | the other literals |
//! | [`chain`] | what the clauses of a reduction are reduced to in their turn | nothing |
//! | [`then`] | what the one clause of a reduction is reduced to in its turn | nothing |
//! | [`split_if`] | its two cases, for an `if` within a literal | the literals, for each case |
//! | [`tidy`] | its plain form, or no clause where that holds by itself | the literals that are kept |
//! | [`use_equality`] | the clause with a variable replaced that a literal solves | the other literals |
//! | [`cases`] | a case for each of some terms, and the case where none of them holds | the literals, for each case |
//! | [`use_fact`] | the clause with the negated instance of a theorem before it | the literals |
//! | [`generalise`] | the clause with a new variable for a term, under what the term's types say | what isn't changed |
//! | [`eliminate`] | the clause with a variable taken apart into a cons of two new ones, and the case where it is none | what isn't changed |
//! | [`fertilise`] | the clause with an equation among its hypotheses used in one side of another, and left out | the other literals |
//! | [`induct`] | the clauses of an induction by a recursive function | what isn't changed |
//!
//! A reduction owns those that it leads to, and shares its clause, which is moved, with how it was made: so literals
//! that stand in both are copied once. [`chain`] and [`then`] keep how each was made that they are handed, and
//! [`keep`] is kept as [`cases`] of no terms.
//!
//! # What isn't a row
//!
//! [`assume`] gives the facts that a term's truth or falsehood adds to a context, [`others_false`] those under
//! which a clause's literal is rewritten. [`equation_leads`] and [`is_choice`] test what [`cons_equal`] and
//! [`if_shape`] ask of a term, [`can_open`] and [`is_constant_call`] what [`open_def`] and [`fold`] do,
//! [`are_relieved`] what [`apply_theorem`] does, [`is_comparison`] what [`by_certificate`] does,
//! [`is_choice_in`] and [`is_solvable`] what [`split_if`] and [`use_equality`] ask of a literal, and
//! [`bare_test`] finds the term whose mask [`if_shape`] is handed. [`occurs_in`] tells whether a variable is new,
//! [`contains`] whether a term is a part of another, [`is_led`] which formals lead an induction. A [`TypeOracle`] says which types a term can
//! have, a [`LinearOracle`] finds certificates. [`shape_of`] tells a term by its head, its parts lent; what
//! terms the rows build, others build by the same calls ([`if_term`], [`not_term`], [`equal_term`],
//! [`negated`], [`subst`]).
#![tactic(auto)]

mod applying;
mod assuming;
mod calls;
mod chaining;
mod choices;
mod derivations;
mod eliminating;
mod equations;
mod facts;
mod fertilising;
mod generalising;
mod hints;
mod induction;
mod linear;
mod lists;
mod literals;
mod negations;
mod objects;
mod opening;
mod parts;
mod places;
mod plain;
mod reductions;
mod relieving;
mod solving;
mod splits;
mod swapping;
mod tidying;
mod types;

pub use ap_list::NoMemory;
pub use ap_list::Seq;
pub use ap_list::Shared;
pub use ap_term::Clause;
pub use ap_term::Subst;
pub use ap_term::Term;
pub use ap_term::is_same;
pub use ap_term::is_symbol;
pub use ap_term::pairs_of;
pub use ap_term::subst;
pub use ap_term::subst_all;
pub use ap_value::Symbol;
pub use ap_value::Value;
pub use ap_world::Head;
pub use ap_world::Mask;
pub use ap_world::ShapeRef;
pub use ap_world::World;
pub use ap_world::equal_symbol;
pub use ap_world::head_of;
pub use ap_world::if_symbol;
pub use ap_world::is_acl2;
pub use ap_world::is_equal;
pub use ap_world::is_if;
pub use ap_world::is_iff;
pub use ap_world::is_implies;
pub use ap_world::is_nil;
pub use ap_world::is_nil_term;
pub use ap_world::is_not;
pub use ap_world::is_t;
pub use ap_world::nil_term;
pub use ap_world::not_symbol;
pub use ap_world::shape_of;
pub use ap_world::t_term;
pub use applying::apply_theorem;
pub use applying::has_part;
pub use assuming::all_false;
pub use assuming::assume;
pub use assuming::assumed_facts_hold;
pub use assuming::is_constant;
pub use assuming::others_false;
pub use calls::branch;
pub use calls::choose_branch;
pub use calls::cong;
pub use calls::if_term;
pub use chaining::chain;
pub use chaining::then;
pub use choices::bare_test;
pub use choices::if_shape;
pub use choices::is_choice;
pub use choices::not_term;
pub use derivations::Derivation;
pub use derivations::Row;
pub use derivations::Source;
pub use derivations::let_go;
pub use derivations::why_of;
pub use eliminating::eliminate;
pub use equations::cons_equal;
pub use equations::equal_term;
pub use equations::equation_leads;
pub use equations::truth_term;
pub use facts::by_fact;
pub use fertilising::fertilise;
pub use fertilising::negated_sides;
pub use fertilising::sides_of;
pub use generalising::generalise;
pub use hints::cases;
pub use hints::use_fact;
pub use induction::induct;
pub use induction::variable_of;
pub use linear::LinearOracle;
pub use linear::Why;
pub use linear::both_not_less;
pub use linear::by_certificate;
pub use linear::is_comparison;
pub use linear::theorem_why;
pub use literals::drop_literal;
pub use literals::keep;
pub use literals::put_at;
pub use literals::rewrite_literal;
pub use negations::double_not;
pub use objects::Ctx;
pub use objects::Equiv;
pub use objects::Mode;
pub use objects::Sequent;
pub use objects::copy_equiv;
pub use opening::can_open;
pub use opening::fold;
pub use opening::is_constant_call;
pub use opening::open_def;
pub use parts::conclusion;
pub use parts::conclusion_part;
pub use parts::hypotheses;
pub use places::is_changed;
pub use places::is_led;
pub use places::mentions;
pub use plain::refl;
pub use plain::trans;
pub use plain::weaken_mode;
pub use reductions::Inference;
pub use reductions::Reduction;
pub use relieving::are_relieved;
pub use solving::is_solvable;
pub use solving::occurs_in;
pub use solving::use_equality;
pub use splits::is_choice_in;
pub use splits::negated;
pub use splits::split_if;
pub use swapping::contains;
pub use swapping::some_contains;
pub use tidying::tidy;
pub use types::TypeOracle;
pub use types::by_type;
