ghost use Rattle.std.specs.Prelude.{◌≡◌, ◌+◌, ◌-◌, ◌^◌, ◌<◌, ◌≤◌, IfSome, IfNone, map};
ghost use Rattle.ap_list.specs.Lists.{sum_of};
ghost use Rattle.ap_term.specs.Order.{variables_in, functions_in, constants_in};
ghost use Rattle.ap_term.specs.Terms.{term_size};

use crate::shape::Shape;
use crate::tree::Term;
use ap_value::nodes;

/// The counts by which terms are ordered first: variable occurrences, function symbols and the nodes in
/// constants. Together they are the term's nodes.
#[derive(Clone, Copy)]
pub struct TermCounts {
    pub variables: u64,
    pub functions: u64,
    pub constants: u64,
}

/// The counts of a term. `None` exactly where its nodes pass 64 bits. It takes one step where the nodes don't
/// pass 32 bits.
#[tactic(auto, using(crate::proofs::KeptCounts::size_parted))]
pub fn counts(t: &Term) -> Option<TermCounts>
    ensures variables { IfSome result (λ c. c.variables ≡ variables_in t.now) }
    ensures functions { IfSome result (λ c. c.functions ≡ functions_in t.now) }
    ensures constants { IfSome result (λ c. c.constants ≡ constants_in t.now) }
    ensures within { IfSome result (λ _. term_size t.now ≤ 2 ^ 64 - 1) }
    ensures past { IfNone result (2 ^ 64 - 1 < term_size t.now) }
{
    if t.nodes_up_to() < u32::MAX {
        return Some(TermCounts {
            variables: u64::from(t.variables()),
            functions: u64::from(t.functions()),
            constants: u64::from(t.constants()),
        });
    }
    let counted = walked_counts(t)?;
    let _nodes = counted
        .variables
        .checked_add(counted.functions)?
        .checked_add(counted.constants)?;
    Some(counted)
}

/// The counts of a term, by a walk. `None` where one of them passes 64 bits.
#[cycle(counting)]
#[tactic(auto, using(crate::proofs::Seen::trees))]
fn walked_counts(t: &Term) -> Option<TermCounts>
    ensures variables { IfSome result (λ c. c.variables ≡ variables_in t.now) }
    ensures functions { IfSome result (λ c. c.functions ≡ functions_in t.now) }
    ensures constants { IfSome result (λ c. c.constants ≡ constants_in t.now) }
    ensures nodes { IfSome result (λ c. c.variables + c.functions + c.constants ≡ term_size t.now) }
    ensures past { IfNone result (2 ^ 64 - 1 < term_size t.now) }
{
    match &t.shape {
        Shape::Var(_) => Some(TermCounts {
            variables: 1,
            functions: 0,
            constants: 0,
        }),
        Shape::Quote(v) => Some(TermCounts {
            variables: 0,
            functions: 0,
            constants: nodes(v)?,
        }),
        Shape::Call(_, xs) => {
            let parts = counts_of(xs.as_slice())?;
            Some(TermCounts {
                variables: parts.variables,
                functions: parts.functions.checked_add(1)?,
                constants: parts.constants,
            })
        }
    }
}

/// The counts of terms together.
#[cycle(counting)]
fn counts_of(xs: &[Term]) -> Option<TermCounts>
    ensures variables { IfSome result (λ c. c.variables ≡ sum_of (map variables_in xs.now)) }
    ensures functions { IfSome result (λ c. c.functions ≡ sum_of (map functions_in xs.now)) }
    ensures constants { IfSome result (λ c. c.constants ≡ sum_of (map constants_in xs.now)) }
    ensures nodes { IfSome result (λ c. c.variables + c.functions + c.constants ≡ sum_of (map term_size xs.now)) }
    ensures past { IfNone result (2 ^ 64 - 1 < sum_of (map term_size xs.now)) }
{
    let mut variables = 0u64;
    let mut functions = 0u64;
    let mut constants = 0u64;
    for x in xs {
        let more = walked_counts(x)?;
        variables = variables.checked_add(more.variables)?;
        functions = functions.checked_add(more.functions)?;
        constants = constants.checked_add(more.constants)?;
    }
    Some(TermCounts {
        variables,
        functions,
        constants,
    })
}
