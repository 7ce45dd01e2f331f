//! The main theorems of `RoundRobin`: what holds of every list of events. Each function does
//! nothing: its contract is the law. The laws speak of the machine in `specs/RoundRobin.antt`. The
//! contract of `serve` states that `serve` answers as this machine does, and leaves the machine's
//! last state.

ghost use Rattle.bit_histories.specs.Histories.{AnswersAreOfTheirStates, CallsAnswerAsLists};
ghost use Rattle.bit_queue.specs.RoundRobin.{answer_in_turn, round_after};
ghost use Rattle.bit_queue.specs.RoundRobin.{answers_in_turn, final_round};
ghost use Rattle.bit_queue.specs.RoundRobinLaws.{NextInTurnRuns, RoundIsIdleExactlyIfNoneIsReady};
ghost use Rattle.bit_queue.specs.RoundRobinLaws.{RefusedAndIdleChangeNoRound, TurnIsPastTheLastRun};
ghost use Rattle.bit_queue.specs.RoundRobinLaws.{RoundHasNoTaskExactlyIfThereIsNone};
ghost use Rattle.bit_queue.specs.RoundRobinLaws.{RoundRemovesExactlyIfReady};
ghost use Rattle.bit_queue.specs.RoundRobinLaws.{RoundIsNotReadyExactlyIfNotReady};
ghost use Rattle.bit_queue.specs.RoundRobinLaws.{ReadyAreThoseNotTakenInTurn};
ghost use Rattle.bit_queue.specs.RoundRobinLaws.{RemovedTasksAreWokenFirstInTurn};
ghost use Rattle.bit_queue.specs.RoundRobinLaws.{NoTaskRunsTwiceBeforeAReadyTask};
ghost use Rattle.bit_queue.specs.RoundRobinLaws.{RestingTasksAreWokenFirstInTurn};
ghost use Rattle.bit_queue.specs.RoundRobinLaws.{TasksAreWokenBetweenTurns, TasksRunInTheirTurn};
ghost use Rattle.bit_queue.specs.RoundRobinLaws.{TasksRunWithinAsManySteps};

/// States that a task runs exactly if the event is a step, the task is ready, and no ready task
/// comes before it in turn.
pub fn next_in_turn_runs()
    ensures { NextInTurnRuns }
{}

/// States that a step is idle exactly if no task is ready.
pub fn idle_exactly_if_none_is_ready()
    ensures { RoundIsIdleExactlyIfNoneIsReady }
{}

/// States that an event is answered `NoTask` exactly if it wakes a number at or past the number of
/// tasks.
pub fn no_task_exactly_if_there_is_none()
    ensures { RoundHasNoTaskExactlyIfThereIsNone }
{}

/// States that an event is answered `Removed` exactly if it removes a task that is ready.
pub fn removed_exactly_if_ready()
    ensures { RoundRemovesExactlyIfReady }
{}

/// States that an event is answered `NotReady` exactly if it removes a number that is no ready
/// task.
pub fn not_ready_exactly_if_not_ready()
    ensures { RoundIsNotReadyExactlyIfNotReady }
{}

/// States that an event which is refused (answered by `NoTask` or `NotReady`) or answered by `Idle`
/// changes neither the ready tasks nor the turn.
pub fn refused_and_idle_change_nothing()
    ensures { RefusedAndIdleChangeNoRound }
{}

/// States that in every list there is an answer `i` exactly if there is an event `i`. It is the
/// answer to this event in the round (the ready tasks and the turn) that the earlier events leave.
/// So what holds of one answer in any round holds of each answer of the list.
pub fn answers_are_of_their_rounds()
    ensures { AnswersAreOfTheirStates answer_in_turn round_after answers_in_turn final_round }
{}

/// States that the turn after a list of events is one more than the number of the task that ran
/// last, or as before if none ran. So the search for the next task begins after that task.
pub fn turn_is_past_the_last_run()
    ensures { TurnIsPastTheLastRun }
{}

/// States that a task which is not ready runs only after it was woken.
pub fn resting_tasks_are_woken_first()
    ensures { RestingTasksAreWokenFirstInTurn }
{}

/// States that a task which runs again was woken since it last ran.
pub fn tasks_are_woken_between()
    ensures { TasksAreWokenBetweenTurns }
{}

/// States that a task which was removed runs only after it was woken again. This holds after each
/// event that removes the task, also if the task was not ready then.
pub fn removed_tasks_are_woken_first()
    ensures { RemovedTasksAreWokenFirstInTurn }
{}

/// States that a task is ready after a list of events exactly if it was ready before, or was woken,
/// and has neither run nor been removed since.
pub fn ready_are_those_not_taken()
    ensures { ReadyAreThoseNotTakenInTurn }
{}

/// States that no task runs twice while a ready task waits: a ready task runs before another task
/// runs for the second time, unless an event removes it before that.
pub fn no_task_runs_twice_before_a_ready_task()
    ensures { NoTaskRunsTwiceBeforeAReadyTask }
{}

/// States that a ready task runs within as many steps as there are tasks that are ready at first or
/// woken meanwhile, however often each is woken, unless an event removes the ready task.
pub fn tasks_run_in_their_turn()
    ensures { TasksRunInTheirTurn }
{}

/// States that a ready task runs within as many steps as there are tasks, whatever is woken, unless
/// an event removes it.
pub fn tasks_run_within_as_many_steps()
    ensures { TasksRunWithinAsManySteps }
{}

/// States that calls of `wake`, `remove` and `next` in any sequence are a history exactly if they
/// answer as the machine does on the list of their events, and leave its last state. The clauses of
/// each call say what it answers and which round it leaves, so such calls are a history. So each
/// law of lists of events holds for them too.
pub fn calls_answer_as_lists()
    ensures { CallsAnswerAsLists answer_in_turn round_after answers_in_turn final_round }
{}
