//! Both forms of a text's whole.
ghost use Rattle.std.specs.Prelude.{◌≡◌, ℕ, Err, IfOk, None, Some, length};
ghost use Rattle.kind_conversion.specs.Laws.{IsConversion};
ghost use Rattle.ltl_formula.specs.Nodes.{IsNodeList, IsNodeIn, tree_at};
ghost use Rattle.ltl_formula.specs.NormalForm.{IsNormal};
ghost use Rattle.solve_ground.specs.Forms.{BothForms, forms_of as forms_in_list};
ghost use Rattle.solve_ground.specs.Parts.{AreFormsOf, forms_made};

use ltl_formula::{AddFault, FormulaId, Formulas};
use ltl_normal::{negated, normal};

/// A list with both forms of a formula.
#[derive(Drop)]
pub(crate) struct Forms {
    pub(crate) formulas: Formulas,
    pub(crate) negated: FormulaId,
    pub(crate) normal: FormulaId,
}

/// Both forms of a formula, made in its list, which takes no new node once `most` stand, the negated one first.
pub(crate) fn forms_of(formulas: Formulas, most: usize, whole: FormulaId) -> Result<Forms, AddFault>
    requires { IsNodeIn formulas whole }
    ensures made { IfOk result (λ f. forms_in_list most formulas whole ≡ Some (forms_made f)) }
    ensures say { IfOk result (λ f. AreFormsOf (tree_at formulas whole) (forms_made f)) }
    ensures none { result ≡ Err AddFault.TooManyNodes → forms_in_list most formulas whole ≡ None }
{
    let mut formulas = formulas;
    let negated = negated(&mut formulas, most, whole)?;
    let normal = normal(&mut formulas, most, whole)?;
    Ok(Forms {
        formulas,
        negated,
        normal,
    })
}
