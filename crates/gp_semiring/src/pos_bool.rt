//! The semiring of minimal witnesses.

ghost use Rattle.std.specs.Prelude.{◌≡◌, ◌∷◌, [], IfOk};
ghost use Rattle.gp_base.specs.Tokens.{token_cmp};
ghost use Rattle.gp_semiring.specs.WitnessLaws.{token_witness_laws, witness_number_in, witness_token_in};
ghost use Rattle.gp_semiring.specs.Witnesses as w;
ghost use Rattle.gp_semiring.specs.Witnesses.{witness_number, witness_plus, witness_times, witness_token};
ghost use Rattle.gp_semiring.specs.WitnessForms.{IsWitness};

use crate::semiring::Semiring;
use crate::set_list::{copies, product, sum};
use crate::token_set::{SetFormat, TokenSet};
use gp_base::{NoMemory, Token, write_joined};
use std::alloc::Global;
use std::marker::Model;

/// The minimal witnesses: sets of tokens of which none contains another, a positive Boolean expression. Contracts see them
/// as the list of the sets, in ascending order.
#[derive(Drop)]
pub struct PosBool {
    sets: Vec<TokenSet>,
}

impl Model for PosBool {
    ghost use Rattle.gp_base.specs.Tokens.{token_cmp};
    ghost use Rattle.gp_semiring.specs.WitnessLaws.{coded_sets};
    ghost use Rattle.gp_semiring.specs.Witnesses.{Sets};
    ghost use Rattle.gp_semiring.specs.WitnessForms.{IsWitness};

    ghost Value = { Sets };

    ghost coded = { coded_sets };

    ghost view = { λ a. a.sets.items };

    ghost invariant = { λ a. IsWitness token_cmp a.sets.items };
}

fn sets_text(alloc: Global, sets: &[TokenSet]) -> Result<Vec<u8>, NoMemory>
    ensures { IfOk result (λ text. text.items ≡ w.sets_text sets.now) }
{
    let mut text = Vec::new(alloc);
    if sets.is_empty() {
        text.push(b'0')?;
        return Ok(text);
    }
    write_joined(alloc, sets, &SetFormat, b" + ", &mut text)?;
    Ok(text)
}

impl PosBool {
    /// The sets in ascending order.
    pub fn sets(&self) -> &[TokenSet]
        ensures sets { result.now ≡ self.now }
        ensures valid { IsWitness token_cmp self.now }
    {
        self.sets.as_slice()
    }
}

impl Semiring for PosBool {
    ghost is_element = { IsWitness token_cmp };

    ghost zero_of = { [] };

    ghost one_of = { [] ∷ [] };

    ghost plus_of = { witness_plus token_cmp };

    ghost times_of = { witness_times token_cmp };

    ghost number_of = { witness_number };

    ghost itself_of = { witness_token };

    ghost text_of = { w.sets_text };

    fn zero(alloc: Global) -> PosBool {
        PosBool {
            sets: Vec::new(alloc),
        }
    }

    fn one(alloc: Global) -> Result<PosBool, NoMemory> {
        let mut sets = Vec::new(alloc);
        sets.push(TokenSet::new(alloc))?;
        Ok(PosBool { sets })
    }

    #[tactic(auto, using(crate::proofs::SetLemmas::sum_is))]
    fn plus(&self, alloc: Global, other: PosBool) -> Result<PosBool, NoMemory> {
        let left = self.sets.as_slice();
        let sets = sum(alloc, other.sets, left)?;
        Ok(PosBool { sets })
    }

    #[tactic(auto, using(crate::proofs::SetLemmas::product_is))]
    fn times(&self, alloc: Global, other: &PosBool) -> Result<PosBool, NoMemory> {
        let left = self.sets.as_slice();
        let right = other.sets.as_slice();
        let sets = product(alloc, Vec::new(alloc), left, right)?;
        Ok(PosBool { sets })
    }

    fn of_number(alloc: Global, number: u64) -> Result<Option<PosBool>, NoMemory> {
        match number {
            0 => Ok(Some(PosBool::zero(alloc))),
            1 => Ok(Some(PosBool::one(alloc)?)),
            _ => Ok(None),
        }
    }

    fn of_itself(alloc: Global, token: &Token) -> Result<Option<PosBool>, NoMemory> {
        let mut sets = Vec::new(alloc);
        sets.push(TokenSet::of(alloc, *token)?)?;
        Ok(Some(PosBool { sets }))
    }

    fn copy(&self, alloc: Global) -> Result<PosBool, NoMemory> {
        Ok(PosBool {
            sets: copies(alloc, self.sets.as_slice())?,
        })
    }

    fn write(&self, out: &mut Vec<u8>) -> Result<(), NoMemory> {
        let text = sets_text(*out.allocator(), self.sets.as_slice())?;
        out.extend_from_slice(&text)?;
        Ok(())
    }

    ghost number_in = { witness_number_in };

    ghost itself_in = { witness_token_in };

    ghost laws = { token_witness_laws };
}
