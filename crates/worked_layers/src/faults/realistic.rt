//! The deck of `examples/realistic.deck`.

pub const DECK: &str = "\
# A utility's expansion plan for twenty years: a system of 22 units grows from a peak of 420 MW to 1,400 MW.\n\
# Lines that begin with # are comments. docs/FORMATS.md has each statement with its units and ranges.\n\
\n\
# The planning period, and the parts of a year: four seasons of 2,190 hours.\n\
YEARS 20\n\
PERIODS 4\n\
# Discount rates, domestic and foreign, in hundredths of a percent per year: 10 and 8 percent.\n\
RATE 1000 800\n\
# What a MWh not served costs, in cents: 1,500 dollars.\n\
ENS 150000\n\
# Three hydro conditions, dry, average and wet, with their weights in ten-thousandths.\n\
CONDITIONS 3000 5000 2000\n\
\n\
# The load duration curve of each season, ten points of load and share of time, in ten-thousandths of the\n\
# peak and of the season: the load is above 42 percent of the winter's peak all the time, for example.\n\
# Winter.\n\
SHAPE 1 0 10000 4200 10000 4925 9300 5650 8300 6375 7000 7100 5400 7825 3700 8550 2200 9275 900 10000 100\n\
# Spring.\n\
SHAPE 2 0 10000 4000 10000 4750 9200 5500 8100 6250 6700 7000 5100 7750 3500 8500 2000 9250 800 10000 80\n\
# Summer.\n\
SHAPE 3 0 10000 3900 10000 4662 9100 5425 7900 6187 6500 6950 4900 7712 3300 8475 1900 9237 700 10000 80\n\
# Autumn.\n\
SHAPE 4 0 10000 4100 10000 4837 9250 5575 8200 6312 6850 7050 5250 7787 3600 8525 2100 9262 850 10000 90\n\
\n\
# Fuel prices, domestic and foreign part, in cents per million kcal.\n\
# Hard coal, in part imported.\n\
FUEL 1 150 420\n\
# Lignite and bagasse, mined and grown here.\n\
FUEL 2 480 0\n\
# Fuel oil.\n\
FUEL 3 60 900\n\
# Natural gas by pipeline.\n\
FUEL 4 0 1350\n\
\n\
# The load forecast: for each year the peak in MW and the shape of each season. It grows by 6.5 percent a year.\n\
LOAD 1 420 1 391 2 378 3 407 4\n\
LOAD 2 447 1 416 2 403 3 434 4\n\
LOAD 3 477 1 443 2 429 3 462 4\n\
LOAD 4 508 1 472 2 457 3 493 4\n\
LOAD 5 541 1 503 2 487 3 525 4\n\
LOAD 6 577 1 536 2 519 3 559 4\n\
LOAD 7 614 1 571 2 553 3 596 4\n\
LOAD 8 654 1 609 2 589 3 635 4\n\
LOAD 9 697 1 648 2 628 3 676 4\n\
LOAD 10 743 1 691 2 669 3 721 4\n\
LOAD 11 791 1 736 2 712 3 768 4\n\
LOAD 12 843 1 784 2 759 3 818 4\n\
LOAD 13 898 1 836 2 809 3 871 4\n\
LOAD 14 957 1 890 2 861 3 928 4\n\
LOAD 15 1020 1 948 2 918 3 989 4\n\
LOAD 16 1087 1 1010 2 978 3 1054 4\n\
LOAD 17 1158 1 1077 2 1042 3 1123 4\n\
LOAD 18 1233 1 1147 2 1110 3 1196 4\n\
LOAD 19 1314 1 1222 2 1183 3 1275 4\n\
LOAD 20 1400 1 1302 2 1260 3 1358 4\n\
\n\
# The existing plants: number, name, units; base block and whole unit in MW; heat rates at base load and above\n\
# in kcal/kWh; fuel; fixed cost in cents per kW and month; variable cost in cents per MWh; forced outage rate in\n\
# ten-thousandths; maintenance in hours per year.\n\
# Lignite, the oldest station.\n\
PLANT 1 LIGN1 2 20 40 2700 2400 2 220 150 800 960\n\
# Its extension.\n\
PLANT 2 LIGN2 1 22 45 2600 2350 2 210 150 900 960\n\
# Coal at the harbour; a third unit comes in year 3.\n\
PLANT 3 COAL 2 25 60 2800 2450 1 210 180 700 840\n\
# Coal inland.\n\
PLANT 4 COAL2 1 25 50 2550 2300 1 200 170 800 960\n\
# Oil-fired steam, to be closed first.\n\
PLANT 5 STEAM1 2 6 12 3100 2700 3 180 220 700 720\n\
# Oil-fired steam in the north.\n\
PLANT 6 STEAM2 2 8 15 3000 2650 3 180 220 700 720\n\
# Oil-fired steam at the capital.\n\
PLANT 7 STEAM3 1 12 25 2850 2500 3 190 210 800 840\n\
# Small gas turbines, closed in year 12.\n\
PLANT 8 GAS1 2 10 10 3300 3300 4 120 300 600 360\n\
# Gas turbines at the airport.\n\
PLANT 9 GAS2 2 12 12 3200 3200 4 120 300 600 360\n\
# Diesels on the islands, closed in year 8.\n\
PLANT 10 DIES1 2 3 5 2450 2400 3 150 500 500 480\n\
# Diesels in the south.\n\
PLANT 11 DIES2 2 3 6 2400 2350 3 150 500 500 480\n\
# A small combined cycle; a second one comes in year 4.\n\
PLANT 12 CC1 1 15 30 2100 1950 4 150 200 600 600\n\
# A gas turbine for the peak.\n\
PLANT 13 PEAK1 1 15 15 3400 3400 4 100 350 700 300\n\
# The sugar mills' surplus, on bagasse.\n\
PLANT 14 SUGAR 1 4 8 3600 3400 2 160 100 1200 1200\n\
\n\
# Units under construction: plant, year, units.\n\
ADD 3 3 1\n\
ADD 12 4 1\n\
# Units that are retired: plant, year, units. A unit is gone from that year on.\n\
# The first oil-fired unit.\n\
RETIRE 5 6 1\n\
# The second.\n\
RETIRE 5 9 1\n\
# Both diesels of the islands.\n\
RETIRE 10 8 2\n\
# One small gas turbine.\n\
RETIRE 8 12 1\n\
# One unit in the north.\n\
RETIRE 6 14 1\n\
\n\
# The thermal candidates: number, name, greatest count; the fields of a plant; capital cost in dollars per kW,\n\
# domestic and foreign; fuel inventory in dollars per kW; life in years.\n\
# A coal unit of 80 MW.\n\
THERMAL 1 COALN 8 40 80 2450 2250 1 230 150 700 840 700 900 60 30\n\
# A combined cycle of 70 MW.\n\
THERMAL 2 CCGT 8 35 70 1900 1750 4 140 180 500 600 300 600 20 25\n\
# A gas turbine of 35 MW.\n\
THERMAL 3 GT 6 35 35 2900 2900 4 90 280 600 300 150 350 15 20\n\
# A lignite unit of 100 MW.\n\
THERMAL 4 LIGNN 6 50 100 2500 2300 2 240 140 800 960 800 1000 40 30\n\
\n\
# The hydro groups: number, name, projects that stand, projects that can be built, fixed cost.\n\
# Run of the river with small ponds.\n\
HYDRO 1 RIVER 1 2 60\n\
# Stations with a seasonal lake.\n\
HYDRO 2 LAKE 1 1 80\n\
# Their projects, in the order in which they are built: capacity in MW, capital cost, life.\n\
PROJECT 1 1 40 0 0 50\n\
PROJECT 1 2 30 900 600 50\n\
PROJECT 1 3 35 1000 700 50\n\
PROJECT 2 1 60 0 0 50\n\
PROJECT 2 2 50 1100 800 50\n\
# The water of each project in each season: base block and peak block in MW and the energy of the peak block in\n\
# MWh, under each of the three conditions.\n\
WATER 1 1 1 11 22 14646 14 22 18308 16 22 21054\n\
WATER 1 1 2 10 22 13182 12 22 16477 14 22 18949\n\
WATER 1 1 3 8 22 10985 10 22 13731 12 22 15790\n\
WATER 1 1 4 9 22 12449 11 22 15562 13 22 17896\n\
WATER 1 2 1 8 16 10652 10 16 13315 12 16 15312\n\
WATER 1 2 2 7 16 9586 9 16 11983 10 16 13781\n\
WATER 1 2 3 6 16 7989 7 16 9986 9 16 11484\n\
WATER 1 2 4 7 16 9054 8 16 11317 10 16 13015\n\
WATER 1 3 1 9 19 12649 12 19 15811 14 19 18183\n\
WATER 1 3 2 8 19 11384 11 19 14230 12 19 16365\n\
WATER 1 3 3 7 19 9487 9 19 11858 10 19 13637\n\
WATER 1 3 4 8 19 10752 10 19 13440 11 19 15456\n\
WATER 2 1 1 16 33 21970 21 33 27462 24 33 31581\n\
WATER 2 1 2 15 33 19773 18 33 24716 21 33 28423\n\
WATER 2 1 3 12 33 16477 15 33 20596 18 33 23686\n\
WATER 2 1 4 14 33 18674 17 33 23343 20 33 26844\n\
WATER 2 2 1 14 27 17975 17 27 22469 20 27 25839\n\
WATER 2 2 2 12 27 16177 15 27 20222 18 27 23255\n\
WATER 2 2 3 10 27 13481 13 27 16852 15 27 19379\n\
WATER 2 2 4 11 27 15279 14 27 19098 17 27 21963\n\
\n\
# What the plan may choose from in each year: for each candidate, thermal before hydro, the least count and how\n\
# far above it the count may be. No year has more than twelve configurations.\n\
TUNNEL 1 1 0 1 0 2 0 1 0 0 0 0 0 0\n\
TUNNEL 1 2 0 1 0 1 1 0 0 1 0 0 0 0\n\
TUNNEL 1 3 0 0 0 2 0 1 0 0 0 1 0 0\n\
TUNNEL 1 4 0 1 0 2 1 0 0 1 0 0 0 0\n\
TUNNEL 1 5 0 1 0 2 1 1 0 0 0 0 0 0\n\
TUNNEL 1 6 0 1 1 1 1 0 0 1 0 0 0 0\n\
TUNNEL 1 7 1 0 0 2 0 1 0 0 0 1 0 0\n\
TUNNEL 1 8 0 1 1 2 1 0 0 1 0 0 0 0\n\
TUNNEL 1 9 1 1 1 2 1 1 0 0 0 0 0 0\n\
TUNNEL 1 10 1 1 2 1 1 0 1 1 1 0 0 0\n\
TUNNEL 1 11 1 0 1 2 0 1 1 0 1 1 0 0\n\
TUNNEL 1 12 0 1 3 2 1 0 1 1 1 0 0 0\n\
TUNNEL 1 13 2 1 2 2 1 1 1 0 1 0 0 0\n\
TUNNEL 1 14 2 1 4 1 1 0 1 1 1 0 1 0\n\
TUNNEL 1 15 2 0 3 2 0 1 1 0 1 1 1 0\n\
TUNNEL 1 16 1 1 4 2 1 0 2 1 1 0 1 0\n\
TUNNEL 1 17 3 1 3 2 2 1 2 0 1 0 1 0\n\
TUNNEL 1 18 3 1 5 1 2 0 2 1 1 0 1 0\n\
TUNNEL 1 19 3 0 4 2 1 1 3 0 2 0 1 0\n\
TUNNEL 1 20 2 1 6 2 2 0 3 1 2 0 1 0\n\
# Reserve: the capacity in the critical season is from 110 to 145 percent of its peak.\n\
MARGIN 1 1 11000 14500\n\
# The loss-of-load probability is at most 2 percent in the worst season and 1 percent on the average, in\n\
# billionths.\n\
LOLP 1 1 20000000 10000000\n\
\n\
# The first plan.\n\
PLAN\n\
\n\
# The plan stood at an edge of its tunnel in three years, so these tunnels are moved by one unit, and the plan is\n\
# made anew. What was simulated before is kept.\n\
# More gas turbines in year 8.\n\
TUNNEL 1 8 1 1 1 1 1 2 0 0 0 0 0 0\n\
# More gas turbines in year 12.\n\
TUNNEL 1 12 1 1 3 1 1 2 1 0 1 0 0 0\n\
# More gas turbines in year 16.\n\
TUNNEL 1 16 2 1 4 1 1 2 2 0 1 0 1 0\n\
PLAN\n\
\n\
# Once more, for lignite and a hydro project.\n\
# More lignite in year 10, and a further project.\n\
TUNNEL 1 10 1 0 1 2 1 0 1 1 1 1 0 0\n\
# The same in year 14.\n\
TUNNEL 1 14 2 0 3 2 1 0 1 1 1 1 1 0\n\
# The same in year 18.\n\
TUNNEL 1 18 3 0 4 2 2 0 2 1 1 1 1 0\n\
PLAN\n\
# The end of the script.\n\
END\n";
