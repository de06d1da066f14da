// Laws, each as a function that does nothing.

ghost use Rattle.mdr_split.specs.Law.{RepliesNeedTheUserText};

/// The user half's reply to any messages is the same with its own text alone.
pub fn replies_need_the_user_text()
    ensures { RepliesNeedTheUserText }
{}
