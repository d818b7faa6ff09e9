use lists::Rows;

/// The built-in throwables of `java/lang`.
#[derive(Clone, Copy, Debug, PartialEq, Eq)]
pub enum Thrown {
    Throwable,
    Exception,
    Error,
    RuntimeException,
    InterruptedException,
    ArithmeticException,
    NullPointerException,
    ArrayIndexOutOfBoundsException,
    NegativeArraySizeException,
    IllegalMonitorStateException,
    OutOfMemoryError,
    StackOverflowError,
}

/// How a part of a run ended.
#[derive(Clone, Copy, Debug, PartialEq, Eq)]
pub enum End {
    Returned,
    /// An exception of this class was caught by no handler.
    Uncaught(Thrown),
    /// The limit of instructions was met.
    Steps,
    /// The limit of failed turns was met.
    Turns,
    /// There was no monitor record left for a wait.
    Records,
    /// The limit of prints was met.
    Prints,
    /// The part was never started.
    NotRun,
}

/// One printed number, with its place among the prints of all threads.
#[derive(Clone, Copy, Debug, PartialEq, Eq)]
pub struct Print {
    pub ticket: u64,
    pub value: i32,
}

/// What one thread counted.
#[derive(Clone, Copy, Debug, PartialEq, Eq)]
pub struct Counts {
    /// Instructions begun.
    pub instructions: u32,
    /// Outermost sections that ran without their lock.
    pub elided: u32,
    /// Attempts that failed.
    pub failed: u32,
    /// Outermost entries that took a lock.
    pub locked: u32,
    /// Locks that this thread made fat.
    pub inflated: u32,
}

/// How one thread ended, what it printed in its order, and what it counted.
#[derive(Debug, Drop)]
pub struct ThreadReport {
    /// The end of the thread; of thread 0 that of the part `init`.
    pub end: End,
    pub prints: Rows<Print>,
    pub counts: Counts,
}

/// What a run came to: its threads in order of their numbers, and the end of the part `done`.
#[derive(Debug, Drop)]
pub struct Outcome {
    pub threads: Rows<ThreadReport>,
    pub done: End,
}
