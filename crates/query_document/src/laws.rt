// Laws of documents of queries, as theorems of functions that do nothing.
ghost use Rattle.std.specs.Prelude.{◌≡◌, ℕ, List};
ghost use Rattle.query_document.specs.QueryDocuments.{Asked, IsQueryDocumentOf};

/// A document asks one thing.
pub fn documents_ask_one_query()
    ensures { (p q : Asked) (bytes : List ℕ) → IsQueryDocumentOf p bytes → IsQueryDocumentOf q bytes → p ≡ q }
{}
