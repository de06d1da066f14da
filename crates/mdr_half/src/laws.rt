// Laws of the halves, each the contract of a function that does nothing.

ghost use Rattle.std.specs.Prelude.{◌≡◌, List, Ok};
ghost use Rattle.mdr_core.specs.declared.plan.Plan.{Plan as AnyPlan};
ghost use Rattle.mdr_syntax.specs.declared.tree.Tree.{Tree as SourceTree};
ghost use Rattle.mdr_syntax.specs.declared.tree.Item.{Item as SourceItem};
ghost use Rattle.mdr_half.specs.Halves.{kernel_tree, user_tree};
ghost use Rattle.mdr_half.specs.Joins.{AreHalvesOf, HasNoRemote, joined};
ghost use Rattle.mdr_half.specs.Worked.{IsWorkedOut};

/// Joining the two halves of a tree gives the tree, whatever the plan is.
pub fn halves_join_to_their_tree()
    ensures { (plan : AnyPlan) (tree : SourceTree) → HasNoRemote tree.items → joined (kernel_tree plan tree) (user_tree plan tree) ≡ Ok tree.items }
{}

/// Where two trees are joined, they are the two halves of what joining gives, places aside.
pub fn joined_trees_are_halves()
    ensures { (kernel user : SourceTree) (items : List SourceItem) → joined kernel user ≡ Ok items → AreHalvesOf kernel.items user.items items }
{}

/// A plan worked out: the text of a counter's plan, and the lines of its calls.
pub fn a_counters_plan_is_written()
    ensures { IsWorkedOut }
{}
