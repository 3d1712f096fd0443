//! Typed programs.

ghost use Rattle.std.specs.Prelude.{◌≡◌, Some};
ghost use Rattle.std.specs.Option.{option_copied};
ghost use Rattle.sal_types.specs.Programs.{Decides, IsAccepted, IsReadable};

use crate::numbers::{handler_numbers, start_numbers};
use crate::program::judge_program;
use crate::signature::Signature;
use crate::signing::all_signatures;
use sal_ast::Program;
use sal_sorts::TypeFault;
use sal_value::{List, Text};
use std::alloc::Global;
use std::marker::Model;

/// A program in which nothing is violated.
#[derive(Drop)]
pub struct Typed {
    program: Program,
    signatures: List<List<Signature>>,
}

impl Model for Typed {
    ghost use Rattle.sal_ast.specs.declared.program.Program.{Program};

    ghost Value = { Program };

    ghost use Rattle.sal_ast.specs.contracts.program.Behavior as behavior;
    ghost use Rattle.std.specs.Coded.{codes};

    ghost coded = { Prim.hlevel (codes, behavior.the_row.coded) };

    ghost use Rattle.sal_types.specs.Programs.{IsAccepted};

    ghost view = { λ t. t.program };

    ghost use Rattle.std.specs.Prelude.{◌≡◌, Some};
    ghost use Rattle.sal_types.specs.Signatures.{all_signatures};

    ghost invariant = { λ t. IsAccepted t.program × (all_signatures t.program ≡ Some t.signatures) };
}

impl Typed {
    ghost use Rattle.sal_types.specs.Signatures as spec;

    pub fn program(&self) -> &Program
        ensures same { result.now ≡ self.now }
        ensures typed { IsAccepted self.now }
    {
        &self.program
    }

    /// The numbers of the start's behaviour and handler.
    pub fn start(&self) -> (u16, u16)
        ensures { spec.start_numbers self.now ≡ Some result }
    {
        start_numbers(&self.program)
    }

    /// The numbers of the first behaviour of this name and of its first handler of this name.
    pub fn find(&self, behavior: &Text, handler: &Text) -> Option<(u16, u16)>
        ensures { result ≡ spec.numbers_by_name behavior.now handler.now self.now }
    {
        handler_numbers(&self.program, behavior, handler)
    }

    /// What the handler with these numbers takes and gives.
    #[tactic(auto, using(crate::proofs::SignatureSteps::signature_of_all))]
    pub fn signature(&self, behavior: u16, handler: u16) -> Option<&Signature>
        ensures { option_copied result ≡ spec.signature_at behavior handler self.now }
    {
        match self.signatures.get(usize::from(behavior)) {
            None => None,
            Some(signatures) => signatures.get(usize::from(handler)),
        }
    }
}

/// A typed program, or the first violation in postorder, and of those at one node that of the
/// lowest rule.
#[tactic(auto, using(crate::proofs::Accepted::accepted, crate::proofs::Accepted::refused))]
pub fn check(alloc: Global, program: Program) -> Result<Typed, TypeFault>
    requires { IsReadable program }
    ensures { Decides program result }
{
    judge_program(alloc, &program)?;
    let signatures = all_signatures(alloc, &program)?;
    Ok(Typed {
        program,
        signatures,
    })
}
