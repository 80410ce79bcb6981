// Taking lists as a program.
ghost use Rattle.std.specs.Prelude.{◌≡◌, [], MatchResult};
ghost use Rattle.refusals.specs.declared.Reason.TheVariants.{NotAForm};
ghost use Rattle.syntax.specs.Scripts.{Script, WellFormed};
ghost use Rattle.syntax.specs.Forms.{IsForm, Forms};
ghost use Rattle.syntax.specs.Held.{HeldPrograms};

use super::form::{Declaration, Node, Row};
use super::held::Program;
use super::names::declarations_stand;
use super::rows::statements_stand;
use refusals::{Reason, Refusal};

impl<'a> Program<'a> {
    // The program without declarations and statements.
    pub fn empty() -> Program<'a>
        ensures { (result.declarations.now ≡ []) × (result.rows.now ≡ []) × (result.nodes.now ≡ []) }
    {
        Program {
            declarations: &[],
            rows: &[],
            nodes: &[],
        }
    }

    // The three lists.
    pub fn declarations(&self) -> &'a [Declaration]
        ensures { result ≡ self.now.declarations }
    {
        self.declarations
    }

    pub fn rows(&self) -> &'a [Row]
        ensures { result ≡ self.now.rows }
    {
        self.rows
    }

    pub fn nodes(&self) -> &'a [Node]
        ensures { result ≡ self.now.nodes }
    {
        self.nodes
    }

    // Takes lists that are the form of a script in place of the program held before. Other lists are refused, and nothing changes.
    // Three lists, and not one struct of them, since a C interface will have three pointers.
    pub fn hold(
        &mut self,
        declarations: &'a [Declaration],
        rows: &'a [Row],
        nodes: &'a [Node],
    ) -> Result<(), Refusal>
        ensures kept { MatchResult result (λ _. (self.new.declarations ≡ declarations.entry) × (self.new.rows ≡ rows.entry) × (self.new.nodes ≡ nodes.entry)) (λ e. (e.reason ≡ NotAForm) × (e.place ≡ 0) × (self.new ≡ self.old)) }
        ensures exactly { MatchResult result (λ _. (s : Script) × (WellFormed s × IsForm s declarations.now rows.now nodes.now)) (λ _. (s : Script) → WellFormed s → IsForm s declarations.now rows.now nodes.now → ⊥) }
    {
        if declarations_stand(declarations) && statements_stand(rows, nodes, declarations.len()) {
            *self = Program {
                declarations,
                rows,
                nodes,
            };
            Ok(())
        } else {
            Err(Refusal::new(Reason::NotAForm, 0))
        }
    }
}

// One form a script, and one script a form.
pub fn forms_are_unique()
    ensures { Forms }
{}

// What the reader of a held program may rely on.
pub fn held_programs_stand()
    ensures { HeldPrograms }
{}
