use bounds::time::PlanTime;

// What the line `T` of a plan says.
#[derive(Clone, Copy)]
pub struct Header {
    pub time: PlanTime,
    pub clocks: usize,
}
