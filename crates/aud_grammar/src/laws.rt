// Laws of the definitions, each proved as what a function ensures.

ghost use Rattle.aud_grammar.specs.Why.Laws as laws;
ghost use Rattle.aud_grammar.specs.Why.Rows as rows;
ghost use Rattle.aud_grammar.specs.Why.ControlRows as control;
ghost use Rattle.aud_grammar.specs.Why.ProcedureRows as procedures;
ghost use Rattle.aud_grammar.specs.Why.TaskRows as tasks;
ghost use Rattle.aud_grammar.specs.Why.RendezvousRows as rendezvous;
ghost use Rattle.aud_grammar.specs.Why.ProtectedRows as protected;
ghost use Rattle.aud_grammar.specs.Why.AbortRows as aborts;
ghost use Rattle.aud_grammar.specs.Why.RequeueRows as requeues;

/// The tree that is read is the tree that the tokens spell.
pub fn spells_law()
    ensures { laws.TheSpelled }
{}

/// Tokens spell one tree at most.
pub fn one_tree_law()
    ensures { laws.OneTree }
{}

/// A syntax fault stands at the least token with which no program goes on, where no token before it
/// opens a level too many; and where that is so, it is answered.
pub fn wrong_place_law()
    ensures { laws.WrongPlace }
{}

/// A fault of levels stands at the first token that opens a level too many, where a program goes on
/// with it; and where that is so, it is answered.
pub fn first_deep_law()
    ensures { laws.FirstDeep }
{}

/// No program within the limit goes on with the token of a fault of levels.
pub fn deep_place_law()
    ensures { laws.DeepPlace }
{}

/// The answers of `parsed` are right, and those of no other function are.
pub fn one_parser_law()
    ensures { laws.OneParser }
{}

/// What is read of tokens does not depend on their places, on the case of letters, or on how a
/// number or a string is spelled.
pub fn alike_law()
    ensures { laws.AlikeRead }
{}

/// A program that was read from a text is read again from its canonical text, but for the places.
pub fn round_trip_law()
    ensures { laws.RoundTrip }
{}

/// Two programs that were read from texts and have one canonical text are the same, but for the
/// places.
pub fn one_text_law()
    ensures { laws.OneText }
{}

/// What is read of small texts, of which each rule of the grammar has some: the whole tree, with
/// all its places.
pub fn trees_of_texts()
    ensures { rows.TreesOfTexts }
{}

/// The token at which small texts go wrong.
pub fn faults_of_texts()
    ensures { rows.FaultsOfTexts }
{}

/// The token at which small texts open a level too many.
pub fn levels_of_texts()
    ensures { rows.LevelsOfTexts }
{}

/// The trees of small texts with blocks, exceptions, for loops and arrays.
pub fn trees_of_control()
    ensures { control.TreesOfControl }
{}

/// The token at which such texts go wrong.
pub fn faults_of_control()
    ensures { control.FaultsOfControl }
{}

/// The token at which such texts open a level too many.
pub fn levels_of_control()
    ensures { control.LevelsOfControl }
{}

/// The trees of small texts with procedures and return statements.
pub fn trees_of_procedures()
    ensures { procedures.TreesOfProcedures }
{}

/// The token at which such texts go wrong.
pub fn faults_of_procedures()
    ensures { procedures.FaultsOfProcedures }
{}

/// The token at which such texts open a level too many.
pub fn levels_of_procedures()
    ensures { procedures.LevelsOfProcedures }
{}

/// The trees of small texts with tasks.
pub fn trees_of_tasks()
    ensures { tasks.TreesOfTasks }
{}

/// The token at which such texts go wrong.
pub fn faults_of_tasks()
    ensures { tasks.FaultsOfTasks }
{}

/// The token at which such texts open a level too many.
pub fn levels_of_tasks()
    ensures { tasks.LevelsOfTasks }
{}

/// The trees of small texts with entries, accept, delay and select statements.
pub fn trees_of_rendezvous()
    ensures { rendezvous.TreesOfRendezvous }
{}

/// The token at which such texts go wrong.
pub fn faults_of_rendezvous()
    ensures { rendezvous.FaultsOfRendezvous }
{}

/// The token at which such texts open a level too many.
pub fn levels_of_rendezvous()
    ensures { rendezvous.LevelsOfRendezvous }
{}

/// The trees of small texts with protected objects and their bodies.
pub fn trees_of_protected()
    ensures { protected.TreesOfProtected }
{}

/// The token at which such texts go wrong.
pub fn faults_of_protected()
    ensures { protected.FaultsOfProtected }
{}

/// The token at which such texts open a level too many.
pub fn levels_of_protected()
    ensures { protected.LevelsOfProtected }
{}

/// The trees of small texts with abort statements.
pub fn trees_of_abort()
    ensures { aborts.TreesOfAbort }
{}

/// The token at which such texts go wrong.
pub fn faults_of_abort()
    ensures { aborts.FaultsOfAbort }
{}

/// The token at which such texts open a level too many.
pub fn levels_of_abort()
    ensures { aborts.LevelsOfAbort }
{}

/// The trees of small texts with requeue statements.
pub fn trees_of_requeue()
    ensures { requeues.TreesOfRequeue }
{}

/// The token at which such texts go wrong.
pub fn faults_of_requeue()
    ensures { requeues.FaultsOfRequeue }
{}

/// The token at which such texts open a level too many.
pub fn levels_of_requeue()
    ensures { requeues.LevelsOfRequeue }
{}
