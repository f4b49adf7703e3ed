//! Laws of legal journals.

ghost use Rattle.std.specs.Prelude.{◌≡◌, ◌∷◌, ◌++◌, true, List, None, Some};
ghost use Rattle.fx_base.specs.declared.names.CallNo.{CallNo};
ghost use Rattle.fx_base.specs.declared.names.Epoch.{Epoch};
ghost use Rattle.fx_base.specs.declared.names.GroupId.{GroupId};
ghost use Rattle.fx_base.specs.declared.names.How.{How};
ghost use Rattle.fx_base.specs.declared.names.How.TheVariants.{Kept};
ghost use Rattle.fx_base.specs.declared.names.MemberId.{MemberId};
ghost use Rattle.fx_base.specs.declared.names.Proc.{Proc};
ghost use Rattle.fx_base.specs.declared.names.Stamp.{Stamp};
ghost use Rattle.fx_base.specs.declared.sparse.Sparse.{Sparse};
ghost use Rattle.fx_item.specs.declared.item.Item.{Item};
ghost use Rattle.fx_item.specs.declared.item.Item.TheVariants.{Created, Restore};
ghost use Rattle.fx_script.specs.declared.job.Job.{Job};
ghost use Rattle.fx_legal.specs.Creations.{is_covered};
ghost use Rattle.fx_legal.specs.Effects.{ident_of};
ghost use Rattle.fx_legal.specs.Ledger.{first_success};
ghost use Rattle.fx_legal.specs.Legal.{IsLegal, ledger_of};
ghost use Rattle.fx_legal.specs.Rules.{MayWrite, stored_at};

/// What stands in front in a legal journal is legal: a run may be looked at while it goes on.
pub fn fronts_are_legal()
    ensures { (job : Job) (front more : List Item) → IsLegal job (front ++ more) → IsLegal job front }
{}

/// Each item of a legal journal may come behind those in front of it.
pub fn items_may_come()
    ensures { (job : Job) (front more : List Item) (it : Item) → IsLegal job (front ++ it ∷ more) → MayWrite job (ledger_of job front) it }
{}

/// A group that is covered as a creation first returns is kept.
pub fn covered_groups_are_kept()
    ensures { (job : Job) (front more : List Item) (p : Proc) (e : Epoch) (k : CallNo) (g : GroupId) (how : How) (stamps : List Stamp) → IsLegal job (front ++ Created p e k g how stamps ∷ more) → first_success (ledger_of job front) e.0 k.0 ≡ None → is_covered job (ledger_of job front) g ≡ true → how ≡ Kept }
{}

/// A restore carries exactly what the identity of its process stored of the member at the stamp,
/// by the journal in front of it.
pub fn restores_give_what_was_stored()
    ensures { (job : Job) (front more : List Item) (p : Proc) (e : Epoch) (g : GroupId) (m : MemberId) (t : Stamp) (list : Sparse) → IsLegal job (front ++ Restore p e g m t list ∷ more) → stored_at ((ledger_of job front).groups g.0) (ident_of ((ledger_of job front).stands p.0)) m t ≡ Some list }
{}
