//! Studies, and their results.

/// The product on two rows, of two alu stations and of one.
pub const PRODUCT_STUDY: &str = "[[program]]\nname = \"mul\"\nfile = \"mul.bin\"\n\
    [axes]\nalu = [2, 1]\n[[unit.mul]]\nlatency = 3\n";

/// The loop on two rows, of a fast alu unit and of a slow one that costs more, which is dropped.
pub const DROPPED: &str = "[[program]]\nname = \"loop\"\nfile = \"loop.bin\"\n\
    [[unit.alu]]\nlatency = 1\nprice = 5\n[[unit.alu]]\nlatency = 10\nprice = 9\n";

/// A front report of these records.
#[macro_export]
macro_rules! front_report_of {
    ($records:expr) => {
        concat!(
            "row,cost,cycles,alu,mul,div,load,store,bru,alu_units,alu_latency,mul_units,mul_latency,\
             div_units,div_latency,mem_units,mem_latency,bru_units,bru_latency,buses,program,steps,\
             program_cycles,end,regs,watch\n",
            $records
        )
    };
}

/// The front report of the row that isn't dropped.
pub const DROPPED_REPORT: &str = front_report_of!(
    "0,5,2000,1,1,1,1,1,1,1,1,1,1,1,1,1,1,1,1,1,loop,1000,2000,ebreak,x2=00010000,-\n"
);
