ghost use Rattle.queues.specs.Runs.{CostsNeverFall};

use kinds::kind::Kind;

// The law of every queue: between two clears the costs handed out never fall.
pub fn costs_never_fall<K: Kind>()
    ensures { CostsNeverFall K.Kind.meaning.less }
{}
