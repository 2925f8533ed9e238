//! Lines, and what they say: a line of the input, a bar, and the line that it is or its fault.

/// Lines of `plan` that are read: every head with its least and greatest numbers.
pub const STATEMENTS: &str = "\
YEARS 1|Years 1\n\
YEARS 30|Years 30\n\
PERIODS 1|Periods 1\n\
PERIODS 2|Periods 2\n\
PERIODS 3|Periods 3\n\
PERIODS 4|Periods 4\n\
PERIODS 6|Periods 6\n\
PERIODS 12|Periods 12\n\
RATE 0 0|Rate 0 0\n\
RATE 10000 10000|Rate 10000 10000\n\
ENS 0|Ens 0\n\
ENS 10000000|Ens 10000000\n\
RULE MERIT|Rule MERIT\n\
RULE BASE|Rule BASE\n\
CASES 1|Cases 1\n\
CASES 8|Cases 8\n\
CONDITIONS 0|Conditions 0\n\
CONDITIONS 10000 10000 10000 10000 10000|Conditions 10000 10000 10000 10000 10000\n\
SHAPE 1 0 0 0 0|Shape(1) 0 0 0 0\n\
SHAPE 100 10000 10000 10000 10000|Shape(100) 10000 10000 10000 10000\n\
FUEL 1 0 0|Fuel(1) 0 0\n\
FUEL 20 50000 50000|Fuel(20) 50000 50000\n\
LOAD 1 1 1|Load(1) 1 1\n\
LOAD 30 400000 100 400000 100|Load(30) 400000 100 400000 100\n\
PLANT 1 p 0 1 1 0 0 1 0 0 0 0|Plant(1) p 0 1 1 0 0 1 0 0 0 0\n\
PLANT 40 Az_9-bcd 128 20000 20000 50000 50000 20 10000 100000 10000 8760|Plant(40) Az_9-bcd 128 20000 20000 50000 50000 20 10000 100000 10000 8760\n\
ADD 1 1 0|Add(1, 1) 0\n\
ADD 40 30 128|Add(40, 30) 128\n\
RETIRE 1 1 0|Retire(1, 1) 0\n\
RETIRE 40 30 128|Retire(40, 30) 128\n\
THERMAL 1 t 0 1 1 0 0 1 0 0 0 0 0 0 0 1|Thermal(1) t 0 1 1 0 0 1 0 0 0 0 0 0 0 1\n\
THERMAL 12 zZ 128 20000 20000 50000 50000 20 10000 100000 10000 8760 50000 50000 10000 100|Thermal(12) zZ 128 20000 20000 50000 50000 20 10000 100000 10000 8760 50000 50000 10000 100\n\
HYDRO 1 h 0 0 0|Hydro(1) h 0 0 0\n\
HYDRO 2 12345678 15 15 10000|Hydro(2) 12345678 15 15 10000\n\
PROJECT 1 1 0 0 0 1|Project(1, 1) 0 0 0 1\n\
PROJECT 2 30 20000 50000 50000 100|Project(2, 30) 20000 50000 50000 100\n\
WATER 1 1 1 0 0 0|Water(1, 1, 1) 0 0 0\n\
WATER 2 30 12 20000 20000 200000000 1 2 3|Water(2, 30, 12) 20000 20000 200000000 1 2 3\n\
TUNNEL 1 1 0 0|Tunnel(1, 1) 0 0\n\
TUNNEL 8 30 128 128 0 1|Tunnel(8, 30) 128 128 0 1\n\
MARGIN 1 1 0 0|Margin(1, 1) 0 0\n\
MARGIN 8 30 100000 100000|Margin(8, 30) 100000 100000\n\
LOLP 1 1 0 0|Lolp(1, 1) 0 0\n\
LOLP 8 30 1000000000 1000000000|Lolp(8, 30) 1000000000 1000000000\n\
VERSION 1|Version 1\n\
VERSION 2|Version 2\n\
ENSMORE 0 0|EnsMore 0 0\n\
ENSMORE 10000000 10000000|EnsMore 10000000 10000000\n\
ESCALATE 0 0|Escalate 0 0\n\
ESCALATE 1000 1000|Escalate 1000 1000\n\
GRID 1|Grid 1\n\
GRID 20|Grid 20\n\
\tENS \t 7\t |Ens 7\n\
ENS 007|Ens 7\n\
ENS 000000000000000007|Ens 7\n\
ENS 7\r|Ens 7\n\
|Blank\n\
\x20\t|Blank\n\
\r|Blank\n\
# any \u{1} bytes|Blank\n\
\x20 #|Blank\n\
PLAN|Plan\n\
END|End\n\
\x20END |End\n\
";

/// Lines of `plan`, most of which have a fault, with its kind and column.
pub const FAULTS: &str = "\
YEARS 0|Range 7\n\
YEARS 31|Range 7\n\
PERIODS 0|Range 9\n\
PERIODS 5|Range 9\n\
PERIODS 13|Range 9\n\
RATE 10001 0|Range 6\n\
RATE 0 10001|Range 8\n\
ENS 10000001|Range 5\n\
CASES 9|Range 7\n\
CONDITIONS 10001|Range 12\n\
SHAPE 101 0 0 0 0|Range 7\n\
SHAPE 1 0 0 0 10001|Range 15\n\
FUEL 21 0 0|Range 6\n\
FUEL 1 50001 0|Range 8\n\
LOAD 31 1 1|Range 6\n\
LOAD 1 0 1|Range 8\n\
LOAD 1 400001 1|Range 8\n\
LOAD 1 1 0|Range 10\n\
LOAD 1 1 101|Range 10\n\
PLANT 41 p 0 1 1 0 0 1 0 0 0 0|Range 7\n\
PLANT 1 p 129 1 1 0 0 1 0 0 0 0|Range 11\n\
PLANT 1 p 0 0 1 0 0 1 0 0 0 0|Range 13\n\
PLANT 1 p 0 1 20001 0 0 1 0 0 0 0|Range 15\n\
PLANT 1 p 0 1 1 0 0 21 0 0 0 0|Range 21\n\
PLANT 1 p 0 1 1 0 0 1 0 100001 0 0|Range 25\n\
PLANT 1 p 0 1 1 0 0 1 0 0 0 8761|Range 29\n\
ADD 1 31 0|Range 7\n\
RETIRE 1 1 129|Range 12\n\
THERMAL 13 t 0 1 1 0 0 1 0 0 0 0 0 0 0 1|Range 9\n\
THERMAL 1 t 0 1 1 0 0 1 0 0 0 0 0 0 0 0|Range 39\n\
THERMAL 1 t 0 1 1 0 0 1 0 0 0 0 0 0 0 101|Range 39\n\
HYDRO 3 h 0 0 0|Range 7\n\
HYDRO 1 h 16 0 0|Range 11\n\
PROJECT 1 31 0 0 0 1|Range 11\n\
PROJECT 1 1 0 0 0 0|Range 19\n\
WATER 1 1 13 0 0 0|Range 11\n\
WATER 1 1 1 0 0 200000001|Range 17\n\
TUNNEL 9 1 0 0|Range 8\n\
TUNNEL 1 1 0 129|Range 14\n\
MARGIN 1 1 100001 0|Range 12\n\
LOLP 1 1 0 1000000001|Range 12\n\
VERSION 3|Range 9\n\
ENSMORE 0 10000001|Range 11\n\
ESCALATE 1001 0|Range 10\n\
GRID 21|Range 6\n\
GRID 0|Range 6\n\
YEARS|Count 6\n\
YEARS  |Count 8\n\
YEARS 1 1|Count 9\n\
YEARS\r|Count 6\n\
LOAD 1 100|Count 11\n\
SHAPE 1 0 10000|Count 16\n\
SHAPE 1 0 10000 5000|Count 21\n\
LOAD 1 5 6 5 6 5 6 5 6 5 6 5 6 5 6 5 6 5 6 5 6 5 6 5 6|Load(1) 5 6 5 6 5 6 5 6 5 6 5 6 5 6 5 6 5 6 5 6 5 6 5 6\n\
LOAD 1 5 6 5 6 5 6 5 6 5 6 5 6 5 6 5 6 5 6 5 6 5 6 5 6 5|Count 56\n\
CONDITIONS 1 2 3 4 5 6|Count 22\n\
WATER 1 1 1 0 0|Count 16\n\
WATER 1 1 1 1 2 3 4|Count 20\n\
TUNNEL 1 1 5|Count 13\n\
PLANT 1|Count 8\n\
PLANT 1 p|Count 10\n\
PLANT 1 p 0 1 1 0 0 1 0 0 0|Count 28\n\
PLANT 1 p 0 1 1 0 0 1 0 0 0 0 0|Count 31\n\
PLAN 1|Count 6\n\
END 1|Count 5\n\
RULE|Count 5\n\
RULE MERIT BASE|Count 12\n\
ENS x|Number 5\n\
ENS -1|Number 5\n\
ENS 1x|Number 5\n\
ENS 0000000000000000007|Number 5\n\
ENS 999999999999999999|Range 5\n\
RULE merit|Number 6\n\
PLANT 1 123456789 0 1 1 0 0 1 0 0 0 0|Number 9\n\
PLANT 1 a.b 0 1 1 0 0 1 0 0 0 0|Number 9\n\
HYDRO 1 h x 0 0|Number 11\n\
RATE x 10001|Number 6\n\
RATE 10001 x|Range 6\n\
RATE 10001|Range 6\n\
ENS 1 #|Count 7\n\
EN|Word 1\n\
ens 1|Word 1\n\
\x20 ENSS 1|Word 3\n\
CHECK 1|Word 1\n\
COME 1 0 0|Word 1\n\
ENDCHECK|Word 1\n\
CASE|Word 1\n\
1|Word 1\n\
ENS 1\u{1}|Byte 6\n\
EN\u{7f} 1|Byte 3\n\
\r\r|Byte 1\n\
ENS\r 1|Byte 4\n\
XX \u{b} y|Byte 4\n\
é|Byte 1\n\
DROP|Count 5\n\
DROP PLAN|Word 6\n\
DROP DROP|Word 6\n\
DROP ENS 1|Count 10\n\
DROP LOAD|Count 10\n\
DROP LOAD 31|Range 11\n\
DROP ADD 1 x|Number 12\n\
";

/// DROP of every head.
pub const DROPS: &str = "\
DROP YEARS|Drop Years\n\
DROP PERIODS|Drop Periods\n\
DROP RATE|Drop Rate\n\
DROP ENS|Drop Ens\n\
DROP RULE|Drop Rule\n\
DROP CASES|Drop Cases\n\
DROP CONDITIONS|Drop Conditions\n\
DROP SHAPE 100|Drop Shape(100)\n\
DROP FUEL 20|Drop Fuel(20)\n\
DROP LOAD 30|Drop Load(30)\n\
DROP PLANT 40|Drop Plant(40)\n\
DROP ADD 40 30|Drop Add(40, 30)\n\
DROP RETIRE 1 1|Drop Retire(1, 1)\n\
DROP THERMAL 12|Drop Thermal(12)\n\
DROP HYDRO 2|Drop Hydro(2)\n\
DROP PROJECT 2 30|Drop Project(2, 30)\n\
DROP WATER 2 30 12|Drop Water(2, 30, 12)\n\
DROP TUNNEL 8 30|Drop Tunnel(8, 30)\n\
DROP MARGIN 1 2|Drop Margin(1, 2)\n\
DROP LOLP 3 4|Drop Lolp(3, 4)\n\
DROP VERSION|Drop Version\n\
DROP ENSMORE|Drop EnsMore\n\
DROP ESCALATE|Drop Escalate\n\
DROP GRID|Drop Grid\n\
";

/// Lines of `check`.
pub const CHECKS: &str = "\
CHECK 1|Check 1\n\
CHECK 8|Check 8\n\
CHECK 9|Range 7\n\
CHECK|Count 6\n\
CHECK 1 1|Count 9\n\
PLAN|Word 1\n\
END|End\n\
ENS 1|Ens 1\n\
DROP ENS|Drop Ens\n\
COME 1 0 0|Word 1\n\
ENDCHECK|Word 1\n\
";

/// Lines of a certificate.
pub const CERTIFICATES: &str = "\
COME 1 0 5|Come 1 [0] 5\n\
COME 30 128 128 128 128 128 128 128 128 128 128 128 128 128 128 999999999999999999|Come 30 [128 128 128 128 128 128 128 128 128 128 128 128 128 128] 999999999999999999\n\
COME 2 7 8 NONE|Come 2 [7 8] NONE\n\
COME|Count 5\n\
COME 1|Count 7\n\
COME 1 xx|Count 10\n\
COME 1 200|Count 11\n\
COME 1 NONE|Count 12\n\
COME 31 xx|Range 6\n\
COME x|Number 6\n\
COME 1 0 0 0 0 0 0 0 0 0 0 0 0 0 0 0|Come 1 [0 0 0 0 0 0 0 0 0 0 0 0 0 0] 0\n\
COME 1 0 0 0 0 0 0 0 0 0 0 0 0 0 0 0 0|Count 36\n\
COME 1 129 0|Range 8\n\
COME 1 NONE NONE|Number 8\n\
COME 1 0 NON|Number 10\n\
COME 1 0 1000000000000000000|Number 10\n\
COME 1 0 1 129 0 0 0 0 0 0 0 0 0 0 0 0 0 0 0 0 0 0 0 0|Range 12\n\
COME 1 0 0 0 0 0 0 0 0 0 0 0 0 0 x 0 y|Number 34\n\
CHOSEN 1 0|Chosen 1 [0]\n\
CHOSEN 30 128 128 128 128 128 128 128 128 128 128 128 128 128 128|Chosen 30 [128 128 128 128 128 128 128 128 128 128 128 128 128 128]\n\
CHOSEN 1|Count 9\n\
CHOSEN 1 0 0 0 0 0 0 0 0 0 0 0 0 0 0 0|Count 38\n\
CHOSEN 0 1|Range 8\n\
CHOSEN 1 129|Range 10\n\
TOTAL 0|Total 0\n\
TOTAL 999999999999999999|Total 999999999999999999\n\
TOTAL x|Number 7\n\
TOTAL|Count 6\n\
TOTAL 1 2|Count 9\n\
INFEASIBLE 1|Infeasible 1\n\
INFEASIBLE 30|Infeasible 30\n\
INFEASIBLE 31|Range 12\n\
INFEASIBLE|Count 11\n\
CASE 1|Skip\n\
EDGE 1 ..|Skip\n\
TERMS|Skip\n\
RISK x y z|Skip\n\
SHORT 1 0|Skip\n\
GEN 1 P1 Coal 5|Skip\n\
GEN \u{1}|Byte 5\n\
ENDCHECK|EndCheck\n\
ENDCHECK 1|Count 10\n\
END|Word 1\n\
CHECK 1|Word 1\n\
ENS 1|Word 1\n\
DROP ENS|Word 1\n\
# x|Blank\n\
|Blank\n\
";
