// Laws of documents, as theorems of functions that do nothing.
ghost use Rattle.std.specs.Prelude.{◌≡◌, ℕ, List};
ghost use Rattle.ps_plan.specs.Plans.{Plan};
ghost use Rattle.ps_document.specs.Document.{IsDocumentOf};

/// A document is that of one plan.
pub fn documents_have_one_plan()
    ensures { (p q : Plan) (bytes : List ℕ) → IsDocumentOf p bytes → IsDocumentOf q bytes → p ≡ q }
{}
