//! The main theorems of `PriorityQueue`: what holds of every list of events. Each function does
//! nothing: its contract is the law. The laws speak of the machine in `specs/Queue.antt`. The
//! contract of `serve` states that `serve` answers as this machine does, and leaves the machine's
//! last state.

ghost use Rattle.bit_histories.specs.Histories.{AnswersAreOfTheirStates, CallsAnswerAsLists};
ghost use Rattle.bit_queue.specs.Queue.{answer_to, state_after, event_answers, final_state};
ghost use Rattle.bit_queue.specs.QueueLaws.{MostUrgentRuns, IdleExactlyIfNoneIsReady};
ghost use Rattle.bit_queue.specs.QueueLaws.{RestingTasksAreWokenFirst, RemovedTasksAreWokenFirst};
ghost use Rattle.bit_queue.specs.QueueLaws.{NoTaskExactlyIfThereIsNone, ReadyAreThoseNotTaken};
ghost use Rattle.bit_queue.specs.QueueLaws.{RemovedExactlyIfReady, NotReadyExactlyIfNotReady};
ghost use Rattle.bit_queue.specs.QueueLaws.{TasksAreWokenBetween, TasksRunInTime};
ghost use Rattle.bit_queue.specs.QueueLaws.{RefusedAndIdleChangeNothing};

/// States that a task runs exactly if the event is a step, the task is ready, and no ready task is
/// more urgent.
pub fn most_urgent_runs()
    ensures { MostUrgentRuns }
{}

/// States that a step is idle exactly if no task is ready.
pub fn idle_exactly_if_none_is_ready()
    ensures { IdleExactlyIfNoneIsReady }
{}

/// States that an event is answered `NoTask` exactly if it wakes a number at or past the number of
/// tasks.
pub fn no_task_exactly_if_there_is_none()
    ensures { NoTaskExactlyIfThereIsNone }
{}

/// States that an event is answered `Removed` exactly if it removes a task that is ready.
pub fn removed_exactly_if_ready()
    ensures { RemovedExactlyIfReady }
{}

/// States that an event is answered `NotReady` exactly if it removes a number that is no ready
/// task.
pub fn not_ready_exactly_if_not_ready()
    ensures { NotReadyExactlyIfNotReady }
{}

/// States that an event which is refused (answered by `NoTask` or `NotReady`) or answered by `Idle`
/// changes nothing.
pub fn refused_and_idle_change_nothing()
    ensures { RefusedAndIdleChangeNothing }
{}

/// States that in every list there is an answer `i` exactly if there is an event `i`. It is the
/// answer to this event in the state (the set of the ready tasks) that the earlier events leave. So
/// what holds of one answer in any state holds of each answer of the list.
pub fn answers_are_of_their_states()
    ensures { AnswersAreOfTheirStates answer_to state_after event_answers final_state }
{}

/// States that a task which is not ready runs only after it was woken.
pub fn resting_tasks_are_woken_first()
    ensures { RestingTasksAreWokenFirst }
{}

/// States that a task which runs again was woken since it last ran.
pub fn tasks_are_woken_between()
    ensures { TasksAreWokenBetween }
{}

/// States that a task which was removed runs only after it was woken again. This holds after each
/// event that removes the task, also if the task was not ready then.
pub fn removed_tasks_are_woken_first()
    ensures { RemovedTasksAreWokenFirst }
{}

/// States that a task is ready after a list of events exactly if it was ready before, or was woken,
/// and has neither run nor been removed since.
pub fn ready_are_those_not_taken()
    ensures { ReadyAreThoseNotTaken }
{}

/// States that a ready task runs within `m + w + 1` steps, unless an event removes it. Here `m` is
/// how many of the other ready tasks are more urgent than this task, and `w` is how often tasks
/// more urgent than it are woken.
pub fn tasks_run_in_time()
    ensures { TasksRunInTime }
{}

/// States that calls of `wake`, `remove` and `next` in any sequence are a history exactly if they
/// answer as the machine does on the list of their events, and leave its last state. The clauses of
/// each call say what it answers and which ready tasks it leaves, so such calls are a history. So
/// each law of lists of events holds for them too.
pub fn calls_answer_as_lists()
    ensures { CallsAnswerAsLists answer_to state_after event_answers final_state }
{}
