//! What holds of all requests: laws, each the contract of a function that does nothing.

ghost use Rattle.std.specs.Prelude.{◌≡◌, ◌++◌, ℕ, Bool, List, IsTrue, Some, codes};
ghost use Rattle.gm_metadata.specs.Labels.{is_label};
ghost use Rattle.gm_http.specs.declared.routes.Target.TheVariants as target;
ghost use Rattle.gm_http.specs.Requests.{Asked, AsksWith};
ghost use Rattle.gm_http.specs.Routes.{target_of};

/// An input asks just one thing.
pub fn one_request()
    ensures { (takes : Bool) (input : List ℕ) (a b : Asked)
        → AsksWith takes input a → AsksWith takes input b → a ≡ b }
{}

/// The targets that name something: just these are of mirrors and of providers.
pub fn targets()
    ensures status { target_of (codes "/status") ≡ Some target.Status }
    ensures mirror { (name : List ℕ) → IsTrue (is_label name)
        → target_of (codes "/mirrors/" ++ name) ≡ Some (target.Mirror name) }
    ensures metadata { (name : List ℕ) → IsTrue (is_label name)
        → target_of (codes "/providers/" ++ (name ++ codes "/metadata"))
        ≡ Some (target.Metadata name) }
    ensures commands { target_of (codes "/commands") ≡ Some target.Commands }
    ensures no_other_mirror { (text name : List ℕ) → target_of text ≡ Some (target.Mirror name)
        → (text ≡ codes "/mirrors/" ++ name) × IsTrue (is_label name) }
    ensures no_other_provider { (text name : List ℕ)
        → target_of text ≡ Some (target.Metadata name)
        → (text ≡ codes "/providers/" ++ (name ++ codes "/metadata")) × IsTrue (is_label name) }
{}
